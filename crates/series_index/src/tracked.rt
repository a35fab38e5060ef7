//! What is kept of one series.
ghost use Rattle.std.specs.Prelude.{◌≡◌, IfOk, OnOk, OnErr};
ghost use Rattle.series_index.specs.Seen.{unseen, with_sample, taken_out, HasRoom};

use crate::NoMemory;
use crate::log::PointLog;
use point_list::FrozenPoints;
use std::alloc::Global;

/// What is kept of a series.
#[derive(Drop)]
pub struct Tracked {
    /// The step whose run first had a sample of it.
    pub since: Option<u64>,
    /// Its positions.
    pub points: PointLog,
}

impl Tracked {
    // A series without samples.
    pub(crate) fn new(alloc: Global) -> Tracked
        ensures { result ≡ unseen }
    {
        Tracked {
            since: None,
            points: PointLog::new(alloc),
        }
    }

    // Puts a sample in; changes nothing where there is no memory.
    pub(crate) fn insert(&mut self, commit: u64, step: u64, value: i64) -> Result<(), NoMemory>
        requires { HasRoom self.old commit step value }
        ensures ok { OnOk result
            (self.new ≡ with_sample commit (record { step = step; value = value }) self.old) }
        ensures err { OnErr result (self.new ≡ self.old) }
    {
        self.points.insert(commit, step, value)?;
        if self.since.is_none() {
            self.since = Some(step);
        }
        Ok(())
    }

    // Places what waits; changes nothing that is seen.
    pub(crate) fn settle(&mut self) -> Result<(), NoMemory>
        ensures { self.new ≡ self.old }
    {
        self.points.settle()
    }

    // Its positions as they are; places what waits, and changes nothing that is seen.
    pub(crate) fn freeze(&mut self) -> Result<FrozenPoints, NoMemory>
        ensures points { IfOk result (λ points. points ≡ self.old.points) }
        ensures same { self.new ≡ self.old }
    {
        self.points.freeze()
    }

    // Takes out the samples of a step; then the series is no longer known where it was since that step, if it is to be
    // forgotten.
    pub(crate) fn remove(&mut self, commit: u64, step: u64, forget: bool)
        ensures { self.new ≡ taken_out forget commit step self.old }
    {
        self.points.remove(commit, step);
        if let Some(since) = self.since {
            if forget && since == step {
                self.since = None;
            }
        }
    }
}
