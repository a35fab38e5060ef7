//! Jobs that run at once, each in a thread of its own.
#![tactic(auto)]

mod job;
mod run;

pub use job::{Job, Worker};
pub use run::{run_at_once, run_with_helpers, run_with_workers, work_at_once};
