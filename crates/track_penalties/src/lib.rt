//! The requests about penalties: as they are given, or from the noise of a series.
//!
//! Each answers and adds exactly what the definitions give on the history so far; where there is no memory nothing
//! changes.
//!
//! Stands on `machine_state` for the state of a machine, on `track_replay` for refused penalties, and on `series_noise`
//! for the noise of positions.
#![tactic(auto)]

mod penalties;

pub use penalties::{calibrate, tune};
pub use std::alloc::AllocError as NoMemory;
