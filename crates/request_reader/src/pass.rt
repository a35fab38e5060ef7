//! Passing bytes of an input that are not kept.
ghost use Rattle.std.specs.Prelude.{◌<◌, ◌≤◌, length, IfOk, IfErr, OnErr};
ghost use Rattle.request_reader.specs.{Filling.StopsFillingFrom, Next.GaveFewFrom, Passes.{PassesFrom, PassesTurn, StopsPassingFrom}};

use crate::lines::Lines;
use crate::stop::ReadStop;
use std::alloc::Global;
use track_outside::Source;

// What a turn of passing bytes comes to.
#[derive(Clone, Copy)]
enum Pass {
    // All of them are passed.
    All,
    // Too few of them were there.
    Short,
    // So many of them are left.
    Left(u64),
}

// Passes the bytes that are kept, and reads more where they are too few.
fn pass_turn<S: Source>(
    alloc: Global,
    lines: &mut Lines,
    source: &mut S,
    count: u64,
) -> Result<Pass, ReadStop>
    ensures ok { IfOk result
        (PassesTurn lines.old lines.new (S.left source.old) (S.left source.new) count) }
    ensures short { OnErr result (length lines.old.kept < count) }
    ensures err { IfErr result (StopsFillingFrom S.Source lines.old source.old source.new) }
    ensures few { OnErr result (GaveFewFrom S.Source lines.old source.old source.new) }
    ensures counts { S.faults source.old ≤ S.faults source.new }
{
    lines.limits();
    let kept = lines.kept().len();
    if count <= kept as u64 {
        lines.use_up(count as usize);
        return Ok(Pass::All);
    }
    lines.use_up(kept);
    if lines.fill(alloc, source)? == 0 {
        return Ok(Pass::Short);
    }
    Ok(Pass::Left(count - kept as u64))
}

// Passes so many bytes, and answers whether they were there. Keeps none of them.
pub(crate) fn pass_bytes<S: Source>(
    alloc: Global,
    lines: &mut Lines,
    source: &mut S,
    count: u64,
) -> Result<bool, ReadStop>
    ensures ok { IfOk result (PassesFrom S.Source lines.old lines.new source.old source.new count) }
    ensures err { IfErr result (StopsPassingFrom S.Source lines.old source.old source.new count) }
    ensures few { OnErr result (GaveFewFrom S.Source lines.old source.old source.new) }
    ensures counts { S.faults source.old ≤ S.faults source.new }
{
    lines.limits();
    let mut left = count;
    loop {
        match pass_turn(alloc, lines, source, left)? {
            Pass::All => return Ok(true),
            Pass::Short => return Ok(false),
            Pass::Left(rest) => left = rest,
        }
    }
}
