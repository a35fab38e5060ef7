//! A piece whose line has come: what it asks with the body behind it.
ghost use Rattle.std.specs.Prelude.{◌≡◌, ◌≤◌, false, IfOk, IfErr};
ghost use Rattle.request_reader.specs.{Begun.HeadIsFirst, LineEnds.BeginsWithLine, Parts.{TakesFrom, Fails}, Passes.PieceFrom};

use crate::asked::Asked;
use crate::body_read::read_short;
use crate::line::is_skipped;
use crate::lines::Lines;
use crate::pass::pass_bytes;
use crate::stop::ReadStop;
use request_model::Refusal;
use request_words::{BODY_LIMIT, Head, body_count};
use std::alloc::Global;
use track_outside::Source;

// Reads a piece whose line, of so many bytes, has come with its line feed: nothing where it is skipped.
pub(crate) fn read_whole<S: Source>(
    alloc: Global,
    lines: &mut Lines,
    source: &mut S,
    len: usize,
) -> Result<Option<Asked>, ReadStop>
    requires begins { BeginsWithLine lines.old.kept len }
    requires goes_on { lines.old.ended ≡ false }
    ensures next { IfOk result (PieceFrom S.Source lines.old lines.new source.old source.new) }
    ensures stops { IfErr result (Fails S.Source lines.old source.old source.new) }
    ensures counts { S.faults source.old ≤ S.faults source.new }
{
    lines.limits();
    if is_skipped(&lines.kept()[..len]) {
        lines.use_up(len + 1);
        return Ok(None);
    }
    let head = lines.head(alloc, len)?;
    Ok(Some(read_body(alloc, lines, source, head, len + 1)?))
}

// Reads the body behind a line that takes so many bytes with its line feed, or passes it where it is too long.
fn read_body<S: Source>(
    alloc: Global,
    lines: &mut Lines,
    source: &mut S,
    head: Head,
    ended: usize,
) -> Result<Asked, ReadStop>
    requires begins { HeadIsFirst lines.old.kept ended head }
    requires goes_on { lines.old.ended ≡ false }
    ensures next { IfOk result (TakesFrom S.Source lines.old lines.new source.old source.new) }
    ensures stops { IfErr result (Fails S.Source lines.old source.old source.new) }
    ensures counts { S.faults source.old ≤ S.faults source.new }
{
    let count = body_count(&head);
    if count <= BODY_LIMIT {
        return read_short(alloc, lines, source, head, ended, count as usize);
    }
    // (a head is let go of where its type isn't known: see `gather`)
    drop(head);
    let at = lines.before();
    lines.use_up(ended);
    if !pass_bytes(alloc, lines, source, count)? {
        return Err(ReadStop::CutOff(at));
    }
    Ok(Asked::Refused(Refusal::BodyTooLong))
}
