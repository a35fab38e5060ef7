//! What is kept of the bytes that were read: the points of the whole lines, and the line that has begun.
ghost use Rattle.std.specs.Prelude.{◌≡◌, ◌≢◌, ◌+◌, ◌^◌, ◌<◌, ◌≤◌, [], ◌∷◌, length, OnOk, IfOk, IfErr, IsTrue};
ghost use Rattle.line_text.specs.Lines.{words_of};
ghost use Rattle.point_list.specs.Steps.{CameUpTo};
ghost use Rattle.cut_lines.specs.LineKinds.{StaysSkipped, HasWord};

use crate::cut_line::{LINE_LIMIT, may_become_good};
use crate::points::add_line;
use line_pieces::{LineReader, Refusal, Stop};
use line_text::next_word;
use point_list::{Points, steps_law};
use std::alloc::Global;

/// How many bytes of a line are kept: one more shows that the line is longer than a line may be.
const KEPT: usize = LINE_LIMIT + 1;

/// Reads cut lines: it keeps the points of the whole lines, and the first bytes of the line that is not yet whole.
#[derive(Drop)]
pub struct Reader {
    most: u64,
    points: Points,
    whole_lines: u64,
    line: Vec<u8>,
    ghost short: { length line.items ≤ 4_097 },
    ghost fits: { most ≤ 16_384 },
    ghost steps: { CameUpTo whole_lines points },
}

impl Reader {
    ghost use Rattle.line_pieces.specs.Pieces.{ReadsMore, LastRefused, EndRefused};
    ghost use Rattle.cut_lines.specs.{HasRead.{HasRead, HasPoints}, Pieces.reading};

    /// A reader of no bytes, for so many positions at most.
    pub fn new(alloc: Global, most: u64) -> Reader
        requires { most ≤ 16_384 }
        ensures limit { result.most ≡ most }
        ensures none { result.whole_lines ≡ 0 }
        ensures read { HasRead [] result }
    {
        steps_law();
        Reader {
            most,
            points: Points::new(alloc),
            whole_lines: 0,
            line: Vec::new(alloc),
        }
    }

    // Ends the line, which may be the last one and empty.
    fn end_line(&mut self) -> Result<(), Stop>
        requires { self.old.whole_lines < 2 ^ 32 }
        ensures limit { self.new.most ≡ self.old.most }
        ensures lines { self.new.whole_lines ≤ self.old.whole_lines + 1 }
        ensures ok { OnOk result (ReadsMore reading (10 ∷ []) self.old self.new) }
        ensures err { IfErr result (LastRefused reading self.old) }
    {
        steps_law();
        self.whole_lines += 1;
        add_line(&mut self.points, self.most, self.whole_lines, &self.line)?;
        self.line.clear();
        Ok(())
    }

    /// The points of all lines.
    pub fn finish(mut self) -> Result<Points, Stop>
        requires { self.whole_lines < 2 ^ 32 }
        ensures ok { IfOk result (HasPoints self) }
        ensures err { IfErr result (EndRefused reading self) }
    {
        // The last line needs no line feed.
        self.end_line()?;
        let Reader { points, line, .. } = self;
        drop(line);
        Ok(points)
    }

    // The number of the line that is not yet whole.
    fn number(&self) -> u64
        requires { self.now.whole_lines < 2 ^ 32 }
        ensures { result ≡ self.now.whole_lines + 1 }
    {
        self.whole_lines + 1
    }
}

impl LineReader for Reader {
    ghost use Rattle.cut_lines.specs.Pieces.{reading as of_cut_lines};

    ghost reading = { of_cut_lines };

    // Takes the bytes up to the line feed, and the line feed. A line of which nothing came before is read where it
    // stands, without a copy.
    fn take_line(&mut self, part: &[u8]) -> Result<(), Stop> {
        if !self.line.is_empty() || part.len() > LINE_LIMIT {
            self.extend_line(part)?;
            return self.end_line();
        }
        steps_law();
        self.whole_lines += 1;
        add_line(&mut self.points, self.most, self.whole_lines, part)?;
        Ok(())
    }

    // Takes the next bytes of the line. It is refused at the first byte behind the most that it may have, unless it is
    // skipped.
    fn extend_line(&mut self, part: &[u8]) -> Result<(), Stop> {
        let room = KEPT - self.line.len();
        if part.len() < room {
            self.line.extend_from_slice(part)?;
            return Ok(());
        }
        self.line.extend_from_slice(&part[..room])?;
        if stays_skipped(&self.line, room, &part[room..]) {
            Ok(())
        } else {
            Err(Stop::Refused(Refusal::Bad, self.number()))
        }
    }

    // Whether bytes behind those that were read may make the line good; else how it is refused.
    fn may_go_on(&mut self) -> Result<(), Stop> {
        if self.line.len() > LINE_LIMIT {
            return Ok(());
        }
        if may_become_good(&mut self.line)? {
            return Ok(());
        }
        Err(Stop::Refused(Refusal::Bad, self.number()))
    }
}

// Whether a line that is longer than a line may be is skipped still: its first bytes, how many of them are new, and the
// new ones behind them. Where none of the first bytes is new, the line was skipped before.
fn stays_skipped(line: &[u8], room: usize, behind: &[u8]) -> bool
    requires { 0 < length line.now }
    ensures yes { IsTrue result → StaysSkipped line.now room behind.now }
    ensures no { (¬ IsTrue result) → HasWord line.now behind.now }
{
    if line[0] == b'#' {
        return true;
    }
    if room > 0 && !is_blank(line) {
        return false;
    }
    is_blank(behind)
}

// Whether there is no word.
fn is_blank(bytes: &[u8]) -> bool
    ensures yes { IsTrue result → words_of bytes.now ≡ [] }
    ensures no { (¬ IsTrue result) → words_of bytes.now ≢ [] }
{
    next_word(bytes, 0).is_none()
}
