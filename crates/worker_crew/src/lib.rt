//! The workers of a shared run, each with its pass of the room: seated, run beside the scripts, and gone again.
//!
//! A [`RoomWorker`] has all that a worker needs in a thread of its own. As a job it recomputes, with a runner as its tool it
//! bisects; both end once the scripts have ended and nothing is claimable. Proved: what its pass made meanwhile, what its
//! runner was asked for it, and that the passes that it and others had are joined again (`specs/Workers.antt`). What they
//! left is done by [`recompute_each`] and [`bisect_each`] once the room is closed (`specs/Last.antt`). By [`run_law`] a whole
//! run of scripts and workers (`specs/Runs.antt`) fits the journals as it leaves them, and leaves them quiet.
//!
//! Stands on `recompute_workers` and `bisect_workers` for the work, on `play_crew` for scripts at a room and for passes that
//! are joined, on `play_fits` for shared runs, and on `side_by_side` for jobs.
#![tactic(auto)]

mod beside;
mod last;
mod laws;
mod leaving;
mod seating;
mod worker;

pub use beside::work_beside;
pub use last::{bisect_each, recompute_each};
pub use laws::{crew_law, run_law};
pub use leaving::leave_workers;
pub use play_crew::{
    Ended, Player, Room, RoomPass, joining_law, leave, seat_scripts, split_passes,
};
pub use recompute_workers::{TrackState, leave_each, unclaimed};
pub use seating::seat_workers;
pub use std::alloc::AllocError as NoMemory;
pub use worker::{RoomWorker, Staff};
