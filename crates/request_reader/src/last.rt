//! The last line of an input, which has no line feed.
ghost use Rattle.std.specs.Prelude.{◌≡◌, ◌∷◌, [], IfOk, OnOk, IfErr};
ghost use Rattle.request_reader.specs.{LastLines.{AsksLast, HasEnded, StopsLast}, Next.{items_of, TellsEnd}, Scripts.IsLine, Unread.Unread};

use crate::asked::Asked;
use crate::line::is_skipped;
use crate::lines::Lines;
use crate::stop::ReadStop;
use request_model::{Refusal, Request};
use request_words::body_count;
use std::alloc::Global;

// Reads the last line, which is all that is kept and left, and has no line feed.
pub(crate) fn read_last(alloc: Global, lines: &mut Lines) -> Result<Asked, ReadStop>
    requires { IsLine lines.old.kept }
    ensures next { IfOk result (AsksLast lines.old) }
    ensures ended { OnOk result (HasEnded lines.old lines.new) }
    ensures stops { IfErr result (StopsLast lines.old) }
{
    lines.limits();
    if is_skipped(lines.kept()) {
        lines.end();
        return Ok(Asked::End);
    }
    let len = lines.kept().len();
    let head = lines.head(alloc, len)?;
    if body_count(&head) > 0 {
        return Err(ReadStop::CutOff(lines.before()));
    }
    let item = lines.item(alloc, head, len, len)?;
    lines.end();
    Ok(asked_of(item))
}

// The answer of an item.
pub(crate) fn asked_of(item: Result<Request, Refusal>) -> Asked
    ensures item { items_of result ≡ item ∷ [] }
    ensures tells { (new : Unread) → TellsEnd new result }
{
    match item {
        Ok(request) => Asked::Request(request),
        Err(refusal) => Asked::Refused(refusal),
    }
}
