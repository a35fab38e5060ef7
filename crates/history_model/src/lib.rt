//! What a history is made of, runs and entries, and what is read from a history.
//!
//! A history is a list of entries, numbered from 1; the number of an entry is its step. All that is known of it is read
//! from its entries anew: the commits (`specs/Commits`), the runs and series (`Runs`), the positions of a series
//! (`Positions`), the setting of a metric (`Penalties`), the publications (`Publications`), the regressions and the jobs
//! (`Regressions`, `Jobs`), the counts that are limited and which histories are legal (`Allowed`). The law functions say how
//! each of these changes with one entry more; they do nothing, and their contracts are what they are for.
//!
//! Stands on `sample_model` for samples, on `line_text` for names, on `metric_table` for the limits, on
//! `segment_model` for positions, on `regression_state` for states and on `bisect_core` for bisections.
#![tactic(auto)]

mod entries;
mod events;
mod laws;
mod publication;
mod run;
mod setting;

pub use entries::{Acceptance, Author, Declaration, Entry, Placed};
pub use events::{JobEvent, Raised, RegressionEvent};
pub use laws::{
    accept_law, between_law, finished_law, growth_law, jobs_law, limits_law, positions_law,
    publication_law, regressions_law, retraction_law, runs_law, series_law, setting_law,
    within_law,
};
pub use publication::Publication;
pub use run::Run;
pub use setting::Setting;
pub use std::alloc::AllocError as NoMemory;
