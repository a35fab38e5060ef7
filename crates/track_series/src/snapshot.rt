//! What a machine's history has of a series.
ghost use Rattle.std.specs.Prelude.{◌≤ℤ◌, ◌^◌, pos};
ghost use Rattle.segment_model.specs.Limits.{IsLength};
ghost use Rattle.track_series.specs.Begun.{Begins};

use line_text::Name;
use pelt_core::Table;
use point_list::FrozenPoints;
use segment_cost::Square;

/// The positions of a series at a version of a machine's history, the penalty of a cut and the least length of a
/// segment there; with the table of an earlier publication, if there is one to begin with.
#[derive(Drop)]
pub struct Snapshot {
    /// The test of the series.
    pub test: Name,
    /// Its metric.
    pub metric: Name,
    /// How many entries the history has.
    pub version: u64,
    /// What a cut costs.
    pub penalty: i128,
    /// How many positions a segment has at least, where there is more than one.
    pub length: u8,
    /// The version of the publication whose table it has, or 0.
    pub base: u64,
    /// The positions of the series.
    pub points: FrozenPoints,
    /// Those that the table is of.
    pub old: FrozenPoints,
    /// Their table, at the penalty and the least length.
    pub table: Option<Table<Square>>,
    pub ghost low: { pos 0 ≤ℤ penalty },
    pub ghost high: { penalty ≤ℤ pos (10 ^ 36) },
    pub ghost long: { IsLength length },
    pub ghost begins: { ∥ Begins base old penalty length table ∥₁ },
}
