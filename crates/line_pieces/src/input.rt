//! Reading of an input in pieces.
ghost use Rattle.std.specs.Prelude.{◌≡◌, ◌+◌, ◌-◌, ◌^◌, ◌<◌, ◌≤◌, [], length, OnOk, IfOk, IfErr};
ghost use Rattle.track_outside.specs.Calls.{GaveAtMost};
ghost use Rattle.line_pieces.specs.{Stops.StopsFor, Pieces.{ReadsMore, MoreRefused, TakesAll, TakesPiece, GivesFew, MoreHasCause, GivesStop, ReadsWhole}};

use crate::line_reader::LineReader;
use crate::stop::Stop;
use memchr::memchr;
use std::alloc::Global;
use track_outside::Source;

/// The most bytes of an input.
const INPUT_LIMIT: u64 = 0x4000_0000;

/// How many bytes are read at once.
const PIECE: usize = 0x1_0000;

/// Gives a new reader the lines of the input, but for the end of the last one. Linear in the bytes, of which one piece is
/// held at once.
pub fn read_lines<I: Source, R: LineReader>(
    alloc: Global,
    input: &mut I,
    reader: &mut R,
) -> Result<(), Stop>
    requires none { R.reading.whole_lines reader.old ≡ 0 }
    requires read { R.reading.has_read [] reader.old }
    ensures limit { R.reading.most reader.new ≡ R.reading.most reader.old }
    ensures ok { OnOk result (ReadsWhole I.Source R.reading input.old input.new reader.new) }
    ensures stop { IfErr result (StopsFor (R.reading.rules (R.reading.most reader.old)) I.Source
        input.old input.new) }
    ensures few { GaveAtMost (2 ^ 30 + 1) (I.left input.old) (I.left input.new) }
    ensures counts { I.faults input.old ≤ I.faults input.new }
{
    let mut buffer = vec![in alloc; 0u8; PIECE]?;
    let mut allowed = INPUT_LIMIT;
    loop {
        let count = take_piece(input, &mut buffer, reader, allowed)?;
        if count == 0 {
            return Ok(());
        }
        allowed -= count;
    }
}

// Gives the reader the next bytes of the input, of which this many are allowed, and answers how many they are: none at
// the end. One byte more than is allowed shows that the input is too long.
fn take_piece<I: Source, R: LineReader>(
    input: &mut I,
    buffer: &mut [u8],
    reader: &mut R,
    allowed: u64,
) -> Result<u64, Stop>
    requires some { 0 < length buffer.old }
    requires few { allowed ≤ 2 ^ 30 }
    requires lines { R.reading.whole_lines reader.old ≤ 2 ^ 30 }
    ensures limit { R.reading.most reader.new ≡ R.reading.most reader.old }
    ensures ok { IfOk result
        (TakesPiece I.Source R.reading input.old input.new reader.old reader.new allowed) }
    ensures err { IfErr result (GivesStop I.Source R.reading input.old input.new reader.old allowed) }
    ensures few { GivesFew I.Source R.reading input.old input.new reader.old allowed }
    ensures counts { I.faults input.old ≤ I.faults input.new }
{
    let room = (allowed + 1).min(buffer.len() as u64) as usize;
    let Ok(count) = input.read(&mut buffer[..room]) else {
        reader.may_go_on()?;
        return Err(Stop::Fault);
    };
    take_allowed(reader, &buffer[..count], allowed)
}

// Takes the next bytes of an input, of which this many are allowed, and answers how many they are.
fn take_allowed<R: LineReader>(reader: &mut R, bytes: &[u8], allowed: u64) -> Result<u64, Stop>
    requires allowed { allowed ≤ 2 ^ 30 }
    requires bytes { length bytes.now ≤ 2 ^ 30 + 1 }
    requires lines { R.reading.whole_lines reader.old ≤ 2 ^ 30 }
    ensures limit { R.reading.most reader.new ≡ R.reading.most reader.old }
    ensures ok { IfOk result (TakesAll R.reading bytes.now allowed reader.old reader.new) }
    ensures err { IfErr result (MoreHasCause R.reading bytes.now allowed reader.old) }
{
    let count = bytes.len() as u64;
    if count > allowed {
        take(reader, &bytes[..allowed as usize])?;
        reader.may_go_on()?;
        return Err(Stop::TooLong);
    }
    take(reader, bytes)?;
    Ok(count)
}

// Takes the next bytes, up to the first line that they show to be refused. Linear in the bytes.
fn take<R: LineReader>(reader: &mut R, bytes: &[u8]) -> Result<(), Stop>
    requires { R.reading.whole_lines reader.old + length bytes.now < 2 ^ 32 }
    ensures limit { R.reading.most reader.new ≡ R.reading.most reader.old }
    ensures lines { R.reading.whole_lines reader.new
        ≤ R.reading.whole_lines reader.old + length bytes.now }
    ensures ok { OnOk result (ReadsMore R.reading bytes.now reader.old reader.new) }
    ensures err { IfErr result (MoreRefused R.reading bytes.now reader.old) }
{
    let mut rest = bytes;
    while let Some(end) = memchr(b'\n', rest) {
        reader.take_line(&rest[..end])?;
        rest = &rest[end + 1..];
    }
    reader.extend_line(rest)
}
