//! The next request of a script.
ghost use Rattle.std.specs.Prelude.{◌≡◌, ◌≤◌, false, true, Ok, MatchResult, IfOk, IfErr};
ghost use Rattle.request_reader.specs.{Next.{ReadsFrom, TellsEnd, GaveFrom, GaveFewFrom}, Reading.StopsFrom, Parts.{TakesFrom, Fails}, Passes.PieceFrom};

use crate::asked::Asked;
use crate::last::read_last;
use crate::line::{LineEnd, find_line};
use crate::lines::Lines;
use crate::stop::ReadStop;
use crate::whole::read_whole;
use std::alloc::Global;
use track_outside::Source;

/// Reads the next request of a script: its line, and behind it the bytes that belong to it. Lines that ask nothing are
/// passed.
///
/// What is left of the script are the bytes that `lines` keeps, and behind them those that the source has left. Where the
/// last of it was used, `lines` has ended; a later call answers the end and asks the source nothing. After a `ReadStop`
/// nothing more may be read with these `lines`. Linear in the bytes that it reads; keeps one line and one body.
pub fn read_request<S: Source>(
    alloc: Global,
    lines: &mut Lines,
    source: &mut S,
) -> Result<Asked, ReadStop>
    requires { lines.old.stopped ≡ false }
    ensures next { lines.old.ended ≡ false
        → IfOk result (ReadsFrom S.Source lines.old lines.new source.old source.new) }
    ensures over { lines.old.ended ≡ true
        → (result ≡ Ok Asked.End) × (lines.new ≡ lines.old) × (source.new ≡ source.old) }
    ensures end { IfOk result (TellsEnd lines.new) }
    ensures gave { MatchResult result
        (λ _. GaveFrom S.Source lines.old lines.new source.old source.new)
        (λ _. GaveFewFrom S.Source lines.old source.old source.new) }
    ensures stops { IfErr result (StopsFrom S.Source lines.old source.old source.new) }
    ensures stopped { MatchResult result
        (λ _. lines.new.stopped ≡ false) (λ _. lines.new.stopped ≡ true) }
    ensures counts { S.faults source.old ≤ S.faults source.new }
{
    lines.limits();
    if lines.has_ended() {
        return Ok(Asked::End);
    }
    match read_next(alloc, lines, source) {
        Ok(asked) => Ok(asked),
        Err(stop) => {
            lines.stop();
            Err(stop)
        }
    }
}

// Reads the next request.
fn read_next<S: Source>(alloc: Global, lines: &mut Lines, source: &mut S) -> Result<Asked, ReadStop>
    requires goes_on { lines.old.ended ≡ false }
    ensures next { IfOk result (TakesFrom S.Source lines.old lines.new source.old source.new) }
    ensures stops { IfErr result (Fails S.Source lines.old source.old source.new) }
    ensures counts { S.faults source.old ≤ S.faults source.new }
{
    lines.limits();
    loop {
        if let Some(asked) = read_piece(alloc, lines, source)? {
            return Ok(asked);
        }
    }
}

// Reads the next piece: nothing where its line is skipped.
fn read_piece<S: Source>(
    alloc: Global,
    lines: &mut Lines,
    source: &mut S,
) -> Result<Option<Asked>, ReadStop>
    requires goes_on { lines.old.ended ≡ false }
    ensures next { IfOk result (PieceFrom S.Source lines.old lines.new source.old source.new) }
    ensures stops { IfErr result (Fails S.Source lines.old source.old source.new) }
    ensures counts { S.faults source.old ≤ S.faults source.new }
{
    match find_line(alloc, lines, source)? {
        LineEnd::Feed(len) => read_whole(alloc, lines, source, len),
        LineEnd::Input => Ok(Some(read_last(alloc, lines)?)),
    }
}
