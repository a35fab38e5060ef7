//! The lines of requests: what the words of a line ask, with the body that it counts.
//!
//! A line has one of fourteen forms, or none. Its words spell names and numbers, and two forms count bytes that belong to
//! the line: a run as Go benchmark text, or as an LNT run. What a line asks with its body is a request, or the first
//! refusal that it meets: `specs/` has the definitions, from `Forms` over `Bodies` to `Items`, and in `Heads` what is
//! known of a line before its body is there. [`read_head`] reads a line so far, [`body_count`] says how many bytes belong
//! to it, and [`item_of`] answers what it asks with them. That is one thing, whatever reads it: [`one_item_law`].
//!
//! Stands on `request_model` for requests, on `regression_state` for the states' words, on `line_text` for words, names and
//! numbers, and on `go_bench_text` and `lnt_report` for bodies.
#![tactic(auto)]

mod amounts;
mod body;
mod found_head;
mod head;
mod laws;
mod names;
mod verb;
mod words;

pub use head::{BODY_LIMIT, Head, LineFault, body_count, item_of, read_head};
pub use laws::one_item_law;
pub use std::alloc::AllocError as NoMemory;
pub use verb::{JobVerb, NumberVerb, SeriesVerb};
