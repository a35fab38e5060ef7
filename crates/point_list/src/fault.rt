//! Why a value was not put in.

/// Why a value was not put in.
#[derive(Clone, Copy, Debug, PartialEq, Eq)]
pub enum PointFault {
    /// There are as many values as there may be.
    SamplesFull,
    /// The position would be new, and there are as many as there may be.
    PositionsFull,
    /// There was no memory.
    NoMemory,
}
