//! How a metric is segmented.

/// What a cut costs, and how many positions each segment has at least, where there is more than one.
#[derive(Clone, Copy, Debug, PartialEq, Eq)]
pub struct Setting {
    /// The penalty of a cut, in squared units of the metric's last decimal.
    pub penalty: i128,
    /// The least length of a segment.
    pub length: u8,
}
