//! The lines that tell statuses.
ghost use Rattle.std.specs.Prelude.{[], ◌∷◌, ◌++◌, decimal, OnOk, OnErr};
ghost use Rattle.track_outside.specs.Calls.{Took, FailedIn};
ghost use Rattle.tracker_top.specs.Text.{line_of};

use crate::status::Status;
use itoa::Buffer;
use track_outside::{Failed, Sink, put_all};

/// Writes the line that tells the status, as docs/COMMANDS.md has it; nothing for `Status::Done`. Takes no memory. A
/// failed write leaves a first part of the line written.
pub fn put_status<O: Sink>(err: &mut O, status: Status) -> Result<(), Failed>
    ensures ok { OnOk result (Took O.Sink err.old err.new (line_of status)) }
    ensures err { OnErr result (FailedIn O.Sink err.old err.new (line_of status)) }
{
    match status {
        Status::Done => Ok(()),
        Status::BadWords => put_all(err, b"bad words\n"),
        Status::ReadFault => put_all(err, b"read fault\n"),
        Status::WriteFault => put_all(err, b"write fault\n"),
        Status::StoreFault => put_all(err, b"store fault\n"),
        Status::BadStore(row) => put_numbered(err, b"bad store: row ", row),
        Status::CutOff(_, offset) => put_numbered(err, b"cut off: input at ", offset),
        Status::NoMemory => put_all(err, b"no memory\n"),
        Status::InputTooLong(_) => put_all(err, b"input too long: input\n"),
        Status::BadLine(line) => put_numbered(err, b"bad line: ", line),
        Status::Full(line) => put_numbered(err, b"full: ", line),
        Status::Differs(_) => put_all(err, b"differs\n"),
        Status::TooFew(count) => put_numbered(err, b"too few commits: ", count),
    }
}

// Writes a line that ends with a number.
pub(crate) fn put_numbered<O: Sink>(err: &mut O, name: &[u8], number: u64) -> Result<(), Failed>
    ensures ok { OnOk result (Took O.Sink err.old err.new (name.now ++ decimal number ++ 10 ∷ [])) }
    ensures err { OnErr result (FailedIn O.Sink err.old err.new
        (name.now ++ decimal number ++ 10 ∷ [])) }
{
    let mut buffer = Buffer::new();
    put_all(err, name)?;
    put_all(err, buffer.format(number).as_bytes())?;
    put_all(err, b"\n")
}
