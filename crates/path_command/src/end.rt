//! How a path ends.
use cut_lines::Stop;

/// How a path ends.
#[derive(Clone, Copy, Debug, PartialEq, Eq)]
pub enum PathEnd {
    /// All was read and written.
    Done,
    /// Reading of the lines stopped, or there was no memory. A line is full that would be the first to pass 65,536 values or
    /// 1,024 positions.
    Stopped(Stop),
    /// The output failed.
    WriteFault,
}
