//! The answer to any request about a machine, and the requests that add a commit or a run or take a run back.
//!
//! A request gets exactly the reply, and adds exactly the entry, that the definitions give on the history so far; where
//! there is no memory nothing changes, but that a segmentation may lose the table that it began with. [`answer`] counts the
//! steps: one for each position that a segmentation looks at anew.
//!
//! Stands on `machine_state` for the state of a machine, on `track_replay` for what is allowed, and on `track_penalties`,
//! `track_series`, `track_reports` and `track_follow` for the requests about series, regressions and bisections.
#![tactic(auto)]

mod commits;
mod requests;
mod run_lines;
mod submissions;

pub use commits::{commit, retract};
pub use requests::{answer, step};
pub use run_lines::runs;
pub use std::alloc::AllocError as NoMemory;
pub use submissions::submit;
pub use track_follow::{MachineState, Settled, replay, settle};
pub use track_series::{
    Begun, Finished, Published, Redone, Snapshot, begin, compute_apart, finish, take_snapshot,
};
