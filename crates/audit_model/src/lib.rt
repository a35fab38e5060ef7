//! The audit of a shared run's files: when they fit together, and else what is told of them.
//!
//! Files fit where the journals are whole and legal, each transcript has the replies to its script's requests as the journals
//! give them, and no entry is a script's that it didn't ask for (`specs/Heard.antt`); else the verdict names the first line
//! or request that doesn't fit (`specs/Verdicts.antt`). [`fits_law`]: files that fit show all that files show of a run that
//! fits its journals (`specs/Fitting.antt`).
//!
//! Stands on `journal_reader` for the journals' text, and on `play_fits` for what replies the journals give.
#![tactic(auto)]

mod heard;
mod laws;
mod verdict;

pub use heard::{Bytes, Heard};
pub use laws::fits_law;
pub use std::alloc::AllocError as NoMemory;
pub use verdict::{AuditStop, Verdict};
