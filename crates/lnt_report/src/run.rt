//! What an LNT run says.
use crate::NoMemory;
use line_text::{Duplicate, Name};
use sample_model::Samples;
use std::alloc::Global;
use std::marker::Model;

/// What an LNT run says: its machine, its commit and its samples.
///
/// Contracts see a record of the names' bytes, the list of samples and the count. The type keeps that
/// no sample's metric is `name`: the member of that key is the test's name, so such a sample has no
/// place in a run.
#[derive(Clone, Debug, Drop)]
pub struct LntRun {
    /// The machine that was measured.
    pub machine: Name,
    /// The commit that was measured.
    pub commit: Name,
    /// What was measured, in the order of the text.
    pub samples: Samples,
    /// How many members of the tests gave no sample, since their value is a text or null.
    pub ignored: u64,
}

impl Model for LntRun {
    ghost use Rattle.std.specs.Prelude.{All};
    ghost use Rattle.lnt_report.specs.Runs.{Report, IsGiven};

    ghost Value = { Report };

    ghost view = { λ r. record {
      machine = r.machine;
      commit = r.commit;
      samples = r.samples;
      ignored = r.ignored;
    } };

    ghost invariant = { λ r. All IsGiven r.samples };
}

impl LntRun {
    ghost use Rattle.std.specs.Prelude.{All};
    ghost use Rattle.lnt_report.specs.Runs.{IsGiven};

    /// Says what the type keeps. Does nothing: its contract is what it is for.
    pub fn limits(&self)
        ensures { All IsGiven self.now.samples }
    {
        let _ = &self.samples;
    }
}

/// An equal run of its own. Linear in the number of samples.
impl Duplicate for LntRun {
    fn copy(&self, _alloc: Global) -> Result<LntRun, NoMemory> {
        self.clone()
    }
}
