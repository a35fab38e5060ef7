//! The series that something came to, with what lately came to each, and who works on it.
//!
//! A `TouchIndex` keeps a mark for a series: the step of its last touch, and its claim. Contracts see what is kept of
//! any series, by [`mark_of`](specs/Marks.antt). The marks are in order of test and metric, so the first series that
//! nobody works on is found without a look at those that have no mark. Look-ups are logarithmic.
//!
//! Stands on `name_index` for ordered maps, and on `line_text` for names.
#![tactic(auto)]

mod index;
mod key;
mod mark;

pub use index::TouchIndex;
pub use key::SeriesKey;
pub use mark::{Claim, Mark};
pub use std::alloc::AllocError as NoMemory;
