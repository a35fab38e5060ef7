//! Where a search by rounds stands, as its callers see it.
/// Where a search by rounds stands. Places count from 0.
#[derive(Clone, Copy, Debug, PartialEq, Eq)]
pub enum WideOutcome {
    /// It is open, and asks for a round of tests.
    Asks,
    /// It has found two places with none between them that can be tested: the last good one and the first bad one.
    Found {
        /// The good one.
        lo: u64,
        /// The bad one.
        hi: u64,
        /// How many places stand between them; each was answered 125.
        skipped: u64,
    },
    /// It ended at a place whose test gave this status, of 128 or more.
    Undecided {
        /// The place.
        place: u64,
        /// The status.
        status: u8,
    },
    /// It ended at a place whose test could not be had.
    Faulted {
        /// The place.
        place: u64,
    },
}

/// What becomes of the answers to a round.
#[derive(Clone, Copy, Debug, PartialEq, Eq)]
pub enum WideAnswered {
    /// They are taken.
    Ok,
    /// The round has this other number of places; nothing is taken.
    WrongCount(u64),
    /// The search is closed, with this outcome; nothing is taken.
    Closed(WideOutcome),
}

/// Why no search begins.
#[derive(Clone, Copy, Debug, PartialEq, Eq)]
pub enum WideFault {
    /// There are not from 2 to 65,536 places, or not from 1 to 8 are to be asked at once.
    BadRange,
    /// There is no memory.
    NoMemory,
}
