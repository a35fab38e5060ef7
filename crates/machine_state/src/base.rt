//! What a segmentation begins with.

use pelt_core::Table;
use segment_cost::{FrozenPoints, Square};

/// The table of a series' last publication, with the positions that it was made from.
#[derive(Drop)]
pub struct Base {
    /// The version of the publication.
    pub version: u64,
    /// The positions of the series there.
    pub points: FrozenPoints,
    /// Their table.
    pub table: Table<Square>,
}
