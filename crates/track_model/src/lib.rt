//! What each request comes to, as definitions over histories: the answer, and the entry that it adds.
//!
//! A form is a row of refusals in their order, then the entry that it adds, then the limits that this may pass. The
//! definitions stand in `specs/`: `Outcomes` (an answer and an entry), `Forms` (the forms whose outcome is a function of the
//! history), `Publishing` (those about segmentations, whose outcome is determined but said by a relation), `Following` (those
//! about regressions and bisections), `Reports` (reports), `Replies` (the reply that a request is given), `Counts` (how many
//! steps it takes), `Tracks` (a machine with its history and the tables that are home, and what a request makes of it). The
//! law functions say what holds of the forms on every history; they do nothing.
//!
//! Stands on `history_model` for histories, on `request_model` for requests and replies, on `segment_cost`, `change_list`
//! and `series_noise` for what is said of a series, on `regression_state`, `bisect_core` and `report_model` for regressions,
//! bisections and reports, and on `metric_table` for limits.
#![tactic(auto)]

mod laws;

pub use laws::{
    begin_law, commit_law, follow_law, outcome_law, publish_law, retract_law, say_law, steps_law,
    tune_law,
};
