//! A series by name.
ghost use Rattle.std.specs.Prelude.{◌≡◌, IfOk};

use crate::NoMemory;
use line_text::{Duplicate, Name};
use std::alloc::Global;

/// A series: a test and a metric. Series are in order of the bytes of the test, then of the metric.
#[derive(Clone, Debug, PartialEq, Eq, PartialOrd, Ord, Drop)]
pub struct SeriesKey {
    /// Its test.
    pub test: Name,
    /// Its metric.
    pub metric: Name,
}

impl SeriesKey {
    /// The series of a test and a metric. The names share their text, so it takes constant time.
    pub fn of(alloc: Global, test: &Name, metric: &Name) -> Result<SeriesKey, NoMemory>
        ensures { IfOk result (λ key. key ≡ record { test = test.now; metric = metric.now }) }
    {
        Ok(SeriesKey {
            test: test.copy(alloc)?,
            metric: metric.copy(alloc)?,
        })
    }
}

/// An equal one of its own, in constant time.
impl Duplicate for SeriesKey {
    fn copy(&self, _alloc: Global) -> Result<SeriesKey, NoMemory> {
        self.clone()
    }
}
