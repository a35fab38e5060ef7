//! The requests about regressions and bisections.
//!
//! Each answers and adds exactly what the definitions give on the history so far; where there is no memory nothing
//! changes. [`settle`] takes in what a worker says of the place that a bisection asks.
//!
//! Stands on `machine_state` for the state of a machine, on `track_replay` for what of it is allowed, on `change_list` for
//! the changes that are raised, on `bisect_core` for bisections, and on `report_lines` for where they stand.
#![tactic(auto)]

mod jobs;
mod regressions;
mod settling;

pub use jobs::{answer_job, bisect, job, resume};
pub use regressions::{regress, set_state};
pub use settling::{Settled, settle};
pub use std::alloc::AllocError as NoMemory;
pub use track_replay::{MachineState, Verdict, replay, retract_refusal, room_for};
