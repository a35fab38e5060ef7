//! Reports: what is known of a machine, as lines of text or as one line of JSON.
//!
//! [`report_model::Pages`] has the facts. The text form spells names canonically, the JSON form writes them as texts.
//!
//! Promised: what is appended is exactly the text of the definitions, line by line and byte by byte, or nothing where
//! there is no memory. Stands on `report_model`, `line_text`, `fixed_value`, `metric_table`, `regression_state`, and on
//! `serde_json`, which writes the JSON.
#![tactic(auto)]

mod as_json;
mod items;
mod text;

pub use as_json::put_json;
pub use report_model::{
    JobLine, JobLines, Pages, RegressionLine, RegressionLines, SeriesLine, SeriesLines, Told,
};
pub use std::alloc::AllocError as NoMemory;
pub use text::put_text;
