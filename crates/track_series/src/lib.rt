//! The segmentations of series: the request for one, snapshots, and what becomes of a finished one.
//!
//! Each answers and adds exactly what the definitions give on the history so far. A snapshot takes the table of the
//! series' last publication with it, where that is home; [`compute`] redoes it, and it comes home with the publication.
//! Where there is no memory nothing changes, but that a table that was taken doesn't come home.
//!
//! Stands on `machine_state` for the state of a machine, on `checkpoint_redo` for tables of positions that were edited, and
//! on `pelt_core` for the tables themselves.
#![tactic(auto)]

mod beside;
mod computing;
mod publishing;
mod redone;
mod segments;
mod snapshot;

pub use beside::{Begun, Finished, begin, finish};
pub use computing::{compute, compute_apart};
pub use publishing::{Published, publish};
pub use redone::Redone;
pub use segments::{segment, take_snapshot};
pub use snapshot::Snapshot;
pub use std::alloc::AllocError as NoMemory;
