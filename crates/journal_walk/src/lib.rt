//! A machine's history, added again entry by entry, publications too.
//!
//! A [`Walk`] goes along a list of entries and adds each where it is allowed behind those before it, so that what any
//! request comes to behind so many entries can be asked of its state. A publication may speak of an older version of the
//! history: what its series was there is kept until its entry comes, and its segmentation is made then, from the table of its
//! series' last one. So one walk is linear in the history, beside the segmentations. [`ByWalk`] judges histories by it.
//!
//! Stands on `machine_state` and `track_replay` for the state of a machine, on `track_series` and `pelt_core` for
//! segmentations, and on `track_step` for what requests come to.
#![tactic(auto)]

mod ahead;
mod firsts;
mod judge;
mod laws;
mod made;
mod needs;
mod now;
mod same;
mod start;
mod steps;
mod tables;
mod version;
mod walk;

pub use judge::ByWalk;
pub use laws::along_law;
pub use same::is_same_entry;
pub use std::alloc::AllocError as NoMemory;
pub use walk::Walk;
