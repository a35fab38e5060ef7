//! The state of one machine: its history, with the indexes that are found in it fast.
//!
//! Contracts see the machine's name, whether the store had it, the history, a list of entries with their authors, and the
//! series whose tables are home. Whatever is asked of a state is defined by the history, and the base of the next
//! segmentation of a series by what is home as well. An entry is added only where it is allowed after those
//! before it, so each history keeps its limits and is legal.
//!
//! What was published of a series is kept as it was made, with its certificate and its positions, so nothing that comes
//! later changes what is told of it.
//!
//! Stands on `order_index`, `sample_store`, `series_index`, `publication_index` and `follow_index` for what is kept of a
//! history, and on `history_model` and `track_model` for what histories and tracks are.
#![tactic(auto)]

mod base;
mod follow;
mod following;
mod of_history;
mod of_series;
mod publish;
mod state;

pub use base::Base;
pub use state::MachineState;
pub use std::alloc::AllocError as NoMemory;
pub use track_model::tune_law;
