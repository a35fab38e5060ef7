//! A change, as its cut shows it.
/// What changed at a cut.
#[derive(Clone, Copy, Debug, PartialEq, Eq)]
pub struct Change {
    /// The last commit before the cut.
    pub before: u64,
    /// The first commit behind it.
    pub after: u64,
    /// The centre of the segment before it.
    pub left: i64,
    /// The centre of the segment behind it.
    pub right: i64,
    /// Whether the centre behind it is worse, by the metric's direction.
    pub worse: bool,
}
