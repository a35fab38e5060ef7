//! Where the next line of an input ends.
ghost use Rattle.std.specs.Prelude.{◌≤◌, IfOk, IfErr, IsTrue};
ghost use Rattle.request_words.specs.Items.{IsSkipped};
ghost use Rattle.request_reader.specs.{LineEnds.{Shows, FindsFrom, Turns}, Parts.Fails};

use crate::lines::Lines;
use crate::stop::ReadStop;
use line_text::next_word;
use memchr::memchr;
use std::alloc::Global;
use track_outside::Source;

// The most bytes of a line.
const LINE_LIMIT: usize = 4_096;

// Where a line ends.
#[derive(Clone, Copy)]
pub(crate) enum LineEnd {
    // At a line feed, behind so many bytes.
    Feed(usize),
    // At the end of the input.
    Input,
}

// What bytes show of the line that they begin with.
#[derive(Clone, Copy)]
pub(crate) enum Look {
    // It ends at a line feed, behind so many bytes.
    Feed(usize),
    // It is longer than a line may be.
    Long,
    // It has begun, and more may come.
    More,
}

// What bytes show of the line that they begin with.
fn look_at(bytes: &[u8]) -> Look
    ensures { Shows bytes.now result }
{
    if let Some(count) = memchr(b'\n', bytes) {
        if count <= LINE_LIMIT {
            return Look::Feed(count);
        }
        return Look::Long;
    }
    if bytes.len() <= LINE_LIMIT {
        return Look::More;
    }
    Look::Long
}

// Looks at the bytes that are kept, and reads more where they show too little.
fn line_turn<S: Source>(
    alloc: Global,
    lines: &mut Lines,
    source: &mut S,
) -> Result<Option<LineEnd>, ReadStop>
    ensures ok { IfOk result (Turns lines.old lines.new (S.left source.old) (S.left source.new)) }
    ensures err { IfErr result (Fails S.Source lines.old source.old source.new) }
    ensures counts { S.faults source.old ≤ S.faults source.new }
{
    match look_at(lines.kept()) {
        Look::Feed(count) => return Ok(Some(LineEnd::Feed(count))),
        Look::Long => return Err(ReadStop::CutOff(lines.before())),
        Look::More => {}
    }
    if lines.fill(alloc, source)? == 0 {
        return Ok(Some(LineEnd::Input));
    }
    Ok(None)
}

// Finds where the next line ends, and reads as far as that takes.
pub(crate) fn find_line<S: Source>(
    alloc: Global,
    lines: &mut Lines,
    source: &mut S,
) -> Result<LineEnd, ReadStop>
    ensures ok { IfOk result (FindsFrom S.Source lines.old lines.new source.old source.new) }
    ensures err { IfErr result (Fails S.Source lines.old source.old source.new) }
    ensures counts { S.faults source.old ≤ S.faults source.new }
{
    lines.limits();
    loop {
        if let Some(end) = line_turn(alloc, lines, source)? {
            return Ok(end);
        }
    }
}

// Whether a line asks nothing: its first byte is #, or there is no word.
pub(crate) fn is_skipped(line: &[u8]) -> bool
    ensures yes { IsTrue result → IsSkipped line.now }
    ensures no { (¬ IsTrue result) → ¬ IsSkipped line.now }
{
    if let [b'#', ..] = line {
        return true;
    }
    next_word(line, 0).is_none()
}
