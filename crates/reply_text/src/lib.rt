//! The text of replies.
//!
//! A reply is a line of words that begins with `@` and the number of entries behind the request, and for a list, a
//! certificate or a report as many lines more as its last word says. Proved: `put_reply` appends exactly the text of the
//! reply.
//!
//! Stands on `request_model` for replies, on `line_text` for names and numbers, on `metric_value` for values, on
//! `cost_certificate` for certificates, on `report_model` and `report_pages` for bisections and reports, on
//! `regression_state` for the states' words and on `metric_table` for the limits'.
#![tactic(auto)]

mod answer;
mod refusal;
mod reply;
mod words;

pub use reply::put_reply;
pub use std::alloc::AllocError as NoMemory;
