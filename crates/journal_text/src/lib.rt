//! The text of journals: what became of each machine, entry by entry, with its author.
//!
//! [`write_journals`] writes them to a sink. Proved of it: the sink took the text, or a first part where it failed or memory
//! was wanting. By [`one_reading_law`] the text has one reading.
//!
//! Stands on `machine_state` for the machines, on `track_entry` for the text of an entry, and on `track_outside` for sinks.
#![tactic(auto)]

mod laws;
mod lines;
mod write;

pub use laws::one_reading_law;
pub use std::alloc::AllocError as NoMemory;
pub use write::write_journals;
