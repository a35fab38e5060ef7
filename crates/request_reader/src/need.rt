//! Reading on until so many bytes are kept.
ghost use Rattle.std.specs.Prelude.{◌≤◌, IfOk, IfErr, OnErr};
ghost use Rattle.request_reader.specs.{Needs.{GathersFrom, Grows, FailsNeed}, Next.GaveFewFrom};

use crate::lines::Lines;
use crate::stop::ReadStop;
use std::alloc::Global;
use track_outside::Source;

// Looks whether so many bytes are kept, and reads more where they aren't.
fn need_turn<S: Source>(
    alloc: Global,
    lines: &mut Lines,
    source: &mut S,
    total: usize,
) -> Result<Option<bool>, ReadStop>
    ensures ok { IfOk result
        (Grows lines.old lines.new (S.left source.old) (S.left source.new) total) }
    ensures err { IfErr result (FailsNeed S.Source lines.old source.old source.new total) }
    ensures few { OnErr result (GaveFewFrom S.Source lines.old source.old source.new) }
    ensures counts { S.faults source.old ≤ S.faults source.new }
{
    if lines.kept().len() >= total {
        return Ok(Some(true));
    }
    if lines.fill(alloc, source)? == 0 {
        return Ok(Some(false));
    }
    Ok(None)
}

// Reads until so many bytes are kept, and answers whether they are: else all that were left are
// kept.
pub(crate) fn need<S: Source>(
    alloc: Global,
    lines: &mut Lines,
    source: &mut S,
    total: usize,
) -> Result<bool, ReadStop>
    ensures ok { IfOk result
        (GathersFrom S.Source lines.old lines.new source.old source.new total) }
    ensures err { IfErr result (FailsNeed S.Source lines.old source.old source.new total) }
    ensures few { OnErr result (GaveFewFrom S.Source lines.old source.old source.new) }
    ensures counts { S.faults source.old ≤ S.faults source.new }
{
    lines.limits();
    loop {
        if let Some(enough) = need_turn(alloc, lines, source, total)? {
            return Ok(enough);
        }
    }
}
