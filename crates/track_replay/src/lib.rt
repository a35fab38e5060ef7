//! Which entries are allowed after a history, and the kept ones, added again.
//!
//! A kept entry that is no publication is added exactly where it is allowed after those before it. What decides that of a
//! run, a retraction, a penalty, a regression or a bisection is public too, for the requests that ask the same.
//!
//! Stands on `machine_state` for the state of a machine, and on `history_model` for what is allowed.
#![tactic(auto)]

mod events;
mod kept;
mod limits;
mod refusals;
mod verdict;

pub use events::{open_after, state_of};
pub use kept::replay;
pub use limits::room_for;
pub use machine_state::MachineState;
pub use refusals::{retract_refusal, tune_refusal};
pub use std::alloc::AllocError as NoMemory;
pub use verdict::Verdict;
