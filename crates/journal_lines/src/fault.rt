//! Why no line was read.

/// Why no line was read.
#[derive(Clone, Copy, Debug, PartialEq, Eq)]
pub enum LineFault {
    /// The bytes are no such line.
    NotLine,
    /// There was no memory.
    NoMemory,
}
