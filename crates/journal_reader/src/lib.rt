//! Journals, read from their text.
//!
//! [`read_journals`] gives the machines with their histories exactly where bytes are the text of journals that a shared run of
//! so many scripts may leave (`specs/Journals.antt`); else it names the first line that is refused (`specs/Reading.antt`).
//! Which entries of a history are allowed a [`Judge`] says. By [`reading_law`] bytes have one reading at most; by
//! [`refusal_law`] one line at most is the first that is refused, and then there is no reading.
//!
//! Stands on `journal_lines` for the lines, and on `history_model` for what is allowed.
#![tactic(auto)]

mod journal;
mod judge;
mod laws;
mod read;

pub use journal::Journal;
pub use judge::Judge;
pub use laws::{reading_law, refusal_law};
pub use read::{Refused, read_journals};
pub use std::alloc::AllocError as NoMemory;
