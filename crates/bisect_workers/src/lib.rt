//! Workers that bisect.
//!
//! [`bisect`] takes questions of a room beside running scripts, asks a runner and says what was found: what its pass makes
//! is tied to the runner's asks. [`bisect_last`] asks a runner each question of a machine's open jobs, until no job is open
//! or there is no room for another entry.
//!
//! Stands on `track_room` for machines that running threads share, on `track_state` for questions, on `track_follow` for what
//! is said of them, and on `track_outside` for runners.
#![tactic(auto)]

mod asking;
mod last;
mod worker;

pub use last::bisect_last;
pub use std::alloc::AllocError as NoMemory;
pub use worker::{bisect, bisect_by};
