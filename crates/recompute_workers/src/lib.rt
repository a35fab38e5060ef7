//! Workers that recompute segmentations.
//!
//! [`recompute`] takes stale series of a room beside running scripts, computes and publishes them: its pass makes
//! publications by its author alone. [`recompute_last`] publishes each stale series of a machine: then every known series
//! has a publication at or after its last touch, unless a limit forbids it.
//!
//! Stands on `track_room` for machines that running threads share, on `track_state` for what is stale, and on
//! `track_series` for segmentations.
#![tactic(auto)]

mod last;
mod worker;

pub use last::recompute_last;
pub use std::alloc::AllocError as NoMemory;
pub use track_room::{AtGate, TrackState, leave_each, unclaimed};
pub use worker::{recompute, recompute_by};
