//! What becomes of a regression, and of a bisection.

use crate::NoMemory;
use line_text::{Duplicate, Name};
use regression_state::State;
use std::alloc::Global;

/// A change of a series that was raised as a regression.
#[derive(Clone, Debug, Drop)]
pub struct Raised {
    /// The test of the series.
    pub test: Name,
    /// Its metric.
    pub metric: Name,
    /// The number of the last commit before the change.
    pub before: u64,
    /// The number of the first commit after it.
    pub after: u64,
}

/// An equal one of its own. The names share their text, so it takes constant time.
impl Duplicate for Raised {
    fn copy(&self, _alloc: Global) -> Result<Raised, NoMemory> {
        self.clone()
    }
}

/// What becomes of a regression.
#[derive(Clone, Debug, Drop)]
pub enum RegressionEvent {
    /// It is raised. Regressions are numbered from 1, as they are raised.
    Raise { raised: Raised },
    /// The regression of this number moves to a state.
    Move { regression: u64, state: State },
}

/// An equal one of its own, in constant time.
impl Duplicate for RegressionEvent {
    fn copy(&self, _alloc: Global) -> Result<RegressionEvent, NoMemory> {
        self.clone()
    }
}

/// What becomes of a bisection.
#[derive(Clone, Copy, Debug, PartialEq, Eq)]
pub enum JobEvent {
    /// A job is begun over the commits declared so far, from one number to another. Jobs are numbered from 1, as they are
    /// begun.
    Begin { lo: u64, hi: u64 },
    /// The commit at a place of the job's list was tested, and the test ended with this status.
    Answer { job: u64, place: u64, status: u8 },
    /// No test of the commit at a place of the job's list could be had.
    GiveUp { job: u64, place: u64 },
}
