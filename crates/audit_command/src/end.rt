//! How an audit ends.
use audit_model::{AuditStop, Verdict};

/// How an audit ends. Scripts are counted from 1, and so are files, in the order in which they are opened.
#[derive(Clone, Copy, Debug, PartialEq, Eq)]
pub enum AuditEnd {
    /// The files fit together, and that was written.
    Done,
    /// The verdict is another.
    Differs(Verdict),
    /// The files aren't read.
    Unread(FileStop),
    /// There is no verdict, or no memory for the line that tells it.
    NoVerdict(AuditStop),
    /// The output failed.
    WriteFault,
}

/// Why the files of an audit aren't read.
#[derive(Clone, Copy, Debug, PartialEq, Eq)]
pub enum FileStop {
    /// A file can't be opened, or reading it failed.
    ReadFault,
    /// This file has a byte past the first 2^30 of all files.
    TooLong(u64),
    /// There was no memory.
    NoMemory,
}
