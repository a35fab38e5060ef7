//! A sample: one measured value.
ghost use Rattle.sample_model.specs.Samples.{IsSample};

use crate::NoMemory;
use line_text::{Duplicate, Name};
use std::alloc::Global;
use std::marker::Model;

/// A value of a test by a metric.
///
/// Contracts see a record of the names' bytes and the value. The type keeps that the metric has at most 64 bytes, and
/// the value a magnitude of at most 10^16.
#[derive(Clone, Debug, Drop)]
pub struct Sample {
    /// What was measured.
    pub test: Name,
    /// How it was measured: the name of the unit.
    pub metric: Name,
    /// The value, as a whole number of units of the metric's last decimal.
    pub value: i64,
}

impl Model for Sample {
    ghost use Rattle.std.specs.Prelude.{◌≤◌, ◌^◌, length, unsigned_abs};
    ghost use Rattle.sample_model.specs.Samples.{Measurement};

    ghost Value = { Measurement };

    ghost view = { λ s. record { test = s.test; metric = s.metric; value = s.value } };

    ghost invariant = { λ s. (length s.metric ≤ 64) × (unsigned_abs s.value ≤ 10 ^ 16) };
}

impl Sample {
    /// Says what the type keeps. Does nothing: its contract is what it is for.
    pub fn limits(&self)
        ensures { IsSample self.now }
    {
        self.test.bytes_law();
        self.metric.bytes_law();
    }
}

/// An equal sample. The names share their text, so it takes constant time.
impl Duplicate for Sample {
    fn copy(&self, _alloc: Global) -> Result<Sample, NoMemory> {
        self.clone()
    }
}
