//! What the limits say of a run more.
use metric_table::Limit;

/// What the limits say of a run more.
#[derive(Clone, Copy, Debug, PartialEq, Eq)]
pub enum Verdict {
    /// It would pass this limit first.
    Full(Limit),
    /// It passes none, and makes so many series known.
    Fits(u64),
}
