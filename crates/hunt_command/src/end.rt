//! How a hunt ends.
use commit_lines::Stop;

/// How a hunt ends.
#[derive(Clone, Copy, Debug, PartialEq, Eq)]
pub enum HuntEnd {
    /// All was read and written.
    Done,
    /// Reading of the names stopped, or there was no memory. A line is full that has the 65,537th commit.
    Stopped(Stop),
    /// There are only so many commits, fewer than two.
    TooFew(u64),
    /// The output failed.
    WriteFault,
}
