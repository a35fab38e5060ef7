//! Where a bisection stands, as its callers see it.
/// Where a bisection stands. Places count from 0 in its list of commits.
#[derive(Clone, Copy, Debug, PartialEq, Eq)]
pub enum Outcome {
    /// It is open, and asks for a test of this place.
    Asks(u64),
    /// It has found two neighbours: the last good place and the first bad one.
    Found {
        /// The good one.
        lo: u64,
        /// The bad one, directly behind it.
        hi: u64,
    },
    /// It ended at a place of which its test could say nothing.
    Undecided {
        /// The place.
        place: u64,
        /// The status that the test gave.
        status: u8,
    },
    /// It ended at a place whose test could not be had.
    Faulted {
        /// The place.
        place: u64,
    },
}

/// What becomes of something that is said of a place.
#[derive(Clone, Copy, Debug, PartialEq, Eq)]
pub enum Answered {
    /// It is recorded.
    Ok,
    /// The bisection asks this other place; nothing is recorded.
    NotAsked(u64),
    /// The bisection is closed, with this outcome; nothing is recorded.
    Closed(Outcome),
}

/// A list of fewer than two commits can't be bisected.
#[derive(Clone, Copy, Debug, PartialEq, Eq)]
pub struct BadRange;
