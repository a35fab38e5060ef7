//! A publication: the segmentation of a series at a version of the history.

use crate::NoMemory;
use line_text::{Duplicate, Name, Numbers};
use std::alloc::Global;

/// A published segmentation: of which series, of which version of the history, and what was found.
#[derive(Clone, Debug, Drop)]
pub struct Publication {
    /// The test of the series.
    pub test: Name,
    /// Its metric.
    pub metric: Name,
    /// How many entries of the history it was made from.
    pub version: u64,
    /// The version of the publication whose table it began with, or 0.
    pub base: u64,
    /// The costs of the segments and the penalties of the cuts.
    pub total: i128,
    /// The places of the cuts, rising.
    pub cuts: Numbers,
}

/// An equal publication of its own. Linear in the number of cuts.
impl Duplicate for Publication {
    fn copy(&self, _alloc: Global) -> Result<Publication, NoMemory> {
        self.clone()
    }
}
