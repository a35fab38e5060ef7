//! Why bytes are no LNT run that can be read.
ghost use Rattle.std.specs.Prelude.{◌≡◌};
ghost use Rattle.lnt_report.specs.declared.fault.ReportFault.TheVariants as fault;

use crate::NoMemory;
use line_text::{Duplicate, Text};
use metric_table::Limit;
use std::alloc::Global;

/// Why bytes are no LNT run that can be read. Places in the bytes count from 0.
#[derive(Clone, Debug, Drop)]
pub enum ReportFault {
    /// The bytes are UTF-8 up to this place.
    NotText(u64),
    /// Some JSON text begins with the bytes before this place, and none goes on with the byte there, or
    /// the bytes end unfinished, and this is their number.
    NotJson(u64),
    /// The byte at this place opens a 33rd level.
    TooDeep(u64),
    /// This rule is the first that is broken, at the member of this path.
    NotReport {
        /// The rule's number, as docs/FORMATS.md lists them.
        rule: u8,
        /// The path: keys and places from 0, joined by points.
        member: Text,
    },
    /// The first number of the run that is no numeral, or whose value is out of range, is of this test
    /// and metric.
    OutOfRange {
        /// The test's name.
        test: Text,
        /// The metric.
        metric: Text,
    },
    /// There are more samples than a run may have.
    Full(Limit),
    /// There was no memory.
    NoMemory,
}

impl From<NoMemory> for ReportFault {
    ghost from_gives = { λ _ e. e ≡ fault.NoMemory };

    fn from(_: NoMemory) -> ReportFault {
        ReportFault::NoMemory
    }
}

/// An equal fault of its own. Linear in the length of its words.
impl Duplicate for ReportFault {
    fn copy(&self, _alloc: Global) -> Result<ReportFault, NoMemory> {
        self.clone()
    }
}
