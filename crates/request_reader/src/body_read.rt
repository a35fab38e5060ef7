//! A body that is kept, read behind its line.
ghost use Rattle.std.specs.Prelude.{true, OnOk, ◌≡◌, ◌≤◌, ◌<◌, ◌+◌, ◌^◌, false, length, IfOk, IfErr};
ghost use Rattle.request_reader.specs.{Begun.{BeginsWithBody, BeginsWithHead}, Needs.GathersFrom, Parts.{AsksKept, TakesFrom, Fails}};

use crate::asked::Asked;
use crate::last::asked_of;
use crate::lines::Lines;
use crate::need::need;
use crate::stop::ReadStop;
use request_words::Head;
use std::alloc::Global;
use track_outside::Source;

// Reads so many bytes behind a line that takes so many bytes with its line feed, and answers what they ask together.
pub(crate) fn read_short<S: Source>(
    alloc: Global,
    lines: &mut Lines,
    source: &mut S,
    head: Head,
    ended: usize,
    count: usize,
) -> Result<Asked, ReadStop>
    requires begins { BeginsWithHead lines.old.kept ended head count }
    requires fits { ended + count < 2 ^ 64 }
    requires goes_on { lines.old.ended ≡ false }
    ensures next { IfOk result (TakesFrom S.Source lines.old lines.new source.old source.new) }
    ensures stops { IfErr result (Fails S.Source lines.old source.old source.new) }
    ensures counts { S.faults source.old ≤ S.faults source.new }
{
    let head = gather(alloc, lines, source, head, ended, count)?;
    ask_kept(alloc, lines, head, ended, ended + count)
}

// Reads on until a body of so many bytes is kept behind a line that takes so many with its line feed, and hands back what is
// held meanwhile. What that is isn't known here, since letting go of a head is much to prove.
fn gather<S: Source, T: Drop>(
    alloc: Global,
    lines: &mut Lines,
    source: &mut S,
    held: T,
    ended: usize,
    count: usize,
) -> Result<T, ReadStop>
    requires begins { BeginsWithBody lines.old.kept ended count }
    requires fits { ended + count < 2 ^ 64 }
    ensures held { IfOk result (λ given. given ≡ held) }
    ensures there { OnOk result (GathersFrom S.Source lines.old lines.new
        source.old source.new (ended + count) true) }
    ensures stops { IfErr result (Fails S.Source lines.old source.old source.new) }
    ensures counts { S.faults source.old ≤ S.faults source.new }
{
    let at = lines.before();
    if !need(alloc, lines, source, ended + count)? {
        return Err(ReadStop::CutOff(at));
    }
    Ok(held)
}

// Uses up a line and its body, which are kept, and answers what they ask together.
fn ask_kept(
    alloc: Global,
    lines: &mut Lines,
    head: Head,
    ended: usize,
    total: usize,
) -> Result<Asked, ReadStop>
    requires order { ended ≤ total }
    requires kept { total ≤ length lines.old.kept }
    ensures ok { IfOk result (AsksKept head lines.old lines.new ended total) }
    ensures err { IfErr result (λ stop. stop ≡ ReadStop.NoMemory) }
{
    let item = lines.item(alloc, head, ended, total)?;
    lines.use_up(total);
    Ok(asked_of(item))
}
