//! The runs of a machine, each counted once by its identity.
//!
//! Contracts see the list of accepted runs in order, each with the step at which it was accepted and, where it was taken
//! back, the step of that. No name stands in two of them, which the type keeps and [`SampleStore::names_law`] says: a run
//! that was taken back stays, so its identity never counts anew. A look-up by name takes
//! constant time, and at worst logarithmic time, whoever picks the names.
//!
//! Stands on `history_model`, whose samples and runs it passes on, on `line_text` for names, on `metric_table` for the
//! limits and on `name_index` for the look-up by name.
#![tactic(auto)]

mod answers;
mod store;

pub use answers::{Accepted, Retracted};
pub use history_model::Run;
pub use sample_model::{Sample, Samples};
pub use std::alloc::AllocError as NoMemory;
pub use store::{SampleStore, Stored};
