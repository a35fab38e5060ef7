//! The state of a machine: its history, and what workers have taken of it.
//!
//! A `TrackState` has a machine's history with its indexes, and the claims of those who work on it: a series may be taken,
//! or refused by a limit, and a job may be taken. Claims stand in no history. Whoever wants work is given the first stale
//! series that nobody claims, or the open job of the smallest number.
//!
//! The series that something touched are in an ordered index. It follows the history when work is asked for, once for
//! each entry, so that a request pays nothing for it and a search looks at no series that is fresh.
//!
//! Stands on `machine_state` for the history with its indexes, on `track_series` and `track_follow` for what is added, and on
//! `touch_model` and `touch_index` for what is stale.
#![tactic(auto)]

mod catching;
mod publishing;
mod questions;
mod requests;
mod state;
mod taking;

pub use history_model::{Author, Entry, Placed};
pub use questions::{Question, open_question};
pub use request_model::{
    Answer, NamedChange, NamedChanges, RangePlace, Refusal, Reply, Request, RunLine, Runs,
};
pub use state::TrackState;
pub use std::alloc::AllocError as NoMemory;
pub use taking::TakenSeries;
pub use track_step::{Begun, MachineState, Published, Redone, Settled, Snapshot, compute_apart};
