//! What a report says of a series, a regression and a bisection.

use crate::NoMemory;
use crate::told::Told;
use line_text::{Duplicate, Items, Name};
use regression_state::State;
use std::alloc::Global;

/// What a report says of a series.
#[derive(Clone, Debug, Drop)]
pub struct SeriesLine {
    /// The test.
    pub test: Name,
    /// The metric.
    pub metric: Name,
    /// How many live samples there are.
    pub samples: u64,
    /// How many commits have a live sample.
    pub positions: u64,
    /// How many cuts the last publication has; none where nothing is published.
    pub changes: Option<u64>,
    /// The centre of the last segment of the last publication; none where there is no segment.
    pub centre: Option<i64>,
}

/// An equal line of its own. Constant time.
impl Duplicate for SeriesLine {
    fn copy(&self, _alloc: Global) -> Result<SeriesLine, NoMemory> {
        self.clone()
    }
}

/// What a report says of a regression.
#[derive(Clone, Debug, Drop)]
pub struct RegressionLine {
    /// Its number.
    pub number: u64,
    /// The test of its series.
    pub test: Name,
    /// The metric of its series.
    pub metric: Name,
    /// The last commit before the change.
    pub before: Name,
    /// The first commit after the change.
    pub after: Name,
    /// What became of it.
    pub state: State,
}

/// An equal line of its own. Constant time.
impl Duplicate for RegressionLine {
    fn copy(&self, _alloc: Global) -> Result<RegressionLine, NoMemory> {
        self.clone()
    }
}

/// What a report says of a bisection.
#[derive(Clone, Debug, Drop)]
pub struct JobLine {
    /// Its number.
    pub job: u64,
    /// One less than the number of its commits.
    pub range: u64,
    /// How many answers were good or bad.
    pub questions: u64,
    /// Where it stands.
    pub outcome: Told,
}

/// An equal line of its own. Constant time.
impl Duplicate for JobLine {
    fn copy(&self, _alloc: Global) -> Result<JobLine, NoMemory> {
        self.clone()
    }
}

/// What a report says of each series.
pub type SeriesLines = Items<SeriesLine>;

/// What a report says of each regression.
pub type RegressionLines = Items<RegressionLine>;

/// What a report says of each bisection.
pub type JobLines = Items<JobLine>;
