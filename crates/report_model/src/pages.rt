//! The facts of a report.

use crate::NoMemory;
use crate::items::{JobLines, RegressionLines, SeriesLines};
use line_text::{Duplicate, Name};
use std::alloc::Global;

/// The facts of a report on a machine.
#[derive(Clone, Debug, Drop)]
pub struct Pages {
    /// The machine.
    pub machine: Name,
    /// How many entries its history has.
    pub step: u64,
    /// Whether the report is asked for as JSON.
    pub json: bool,
    /// Each known series, by the bytes of test, then metric.
    pub series: SeriesLines,
    /// Each regression, by number.
    pub regressions: RegressionLines,
    /// Each bisection, by number.
    pub jobs: JobLines,
}

/// Equal facts of their own. Linear in the number of series, regressions and bisections.
impl Duplicate for Pages {
    fn copy(&self, _alloc: Global) -> Result<Pages, NoMemory> {
        self.clone()
    }
}
