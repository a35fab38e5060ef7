//! Why a line gives no samples.

// Why a line gives no samples.
#[derive(Clone, Copy, Debug, PartialEq, Eq)]
pub(crate) enum LineFault {
    // A value or a test is out of range.
    OutOfRange,
    // There was no memory.
    NoMemory,
}
