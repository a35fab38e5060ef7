//! A finished segmentation with its table.

use pelt_core::Table;
use segment_cost::{Done, Square};

/// A finished segmentation, and the table of its positions.
#[derive(Drop)]
pub struct Redone {
    /// The segmentation.
    pub done: Done,
    /// Its table.
    pub table: Table<Square>,
}
