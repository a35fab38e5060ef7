//! A finished segmentation of a series.
ghost use Rattle.std.specs.Prelude.{pos, ◌≤ℤ◌, ◌^◌};
ghost use Rattle.segment_model.specs.Limits.{IsLength};
ghost use Rattle.segment_cost.specs.Certificate.{StandsFor};

use crate::cert::Cert;
use crate::{FrozenPoints, NoMemory};
use line_text::{Duplicate, Name};
use std::alloc::Global;

/// A finished segmentation of a series, as it is published.
#[derive(Drop)]
pub struct Done {
    /// The test of the series.
    pub test: Name,
    /// Its metric.
    pub metric: Name,
    /// How many entries of the history it was made from.
    pub version: u64,
    /// The version of the publication whose table it began with, or 0.
    pub base: u64,
    /// How many positions were looked at anew.
    pub redone: u64,
    /// The best segmentation of the points, with its table, at a penalty from 0 to 10^36 and a least length from 1 to 64.
    pub cert: Cert,
    /// The positions of the series.
    pub points: FrozenPoints,
    pub ghost stands: { ∥ (pos 0 ≤ℤ cert.penalty) × (cert.penalty ≤ℤ pos (10 ^ 36))
        × IsLength cert.length × StandsFor points cert.penalty cert.length cert ∥₁ },
}

/// An equal segmentation of its own, whose positions are shared. Takes the time that a clone of the certificate takes.
impl Duplicate for Done {
    fn copy(&self, alloc: Global) -> Result<Done, NoMemory> {
        Ok(Done {
            test: self.test.copy(alloc)?,
            metric: self.metric.copy(alloc)?,
            version: self.version,
            base: self.base,
            redone: self.redone,
            cert: self.cert.copy(alloc)?,
            points: self.points.share()?,
        })
    }
}
