//! What is fixed by a table: each metric's decimals, direction and default penalty, and the limits.
//!
//! Promised: each answer is the one of the metric's row, and the row of all others where it has none. Stands on std
//! alone.
#![tactic(auto)]

mod limits;
mod metrics;

pub use limits::Limit;
pub use metrics::{decimals, default_penalty, larger_is_better};
