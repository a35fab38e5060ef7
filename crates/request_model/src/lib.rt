//! What a script asks and what is answered: plain types, which the readers and writers of their texts and the state of a
//! machine share.
//!
//! Contracts see names as their bytes and lists as lists, so definitions speak of these very types. A form or a refusal
//! more is a variant more, and concerns neither the readers of bodies nor what is said of histories, which stand below.
//!
//! Stands on `line_text` for names and lists, on `sample_model` for samples, on `segment_cost` for certificates, on
//! `regression_state` and `report_model` for what is said of regressions, bisections and reports, and on
//! `metric_table` for limits.
#![tactic(auto)]

mod changes;
mod replies;
mod requests;
mod runs;

pub use changes::{NamedChange, NamedChanges};
pub use line_text::Boxed;
pub use replies::{Answer, RangePlace, Refusal, Reply};
pub use requests::Request;
pub use runs::{RunLine, Runs};
