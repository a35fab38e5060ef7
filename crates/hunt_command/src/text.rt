//! The line that a hunt prints.
ghost use Rattle.std.specs.Prelude.{◌≡◌, ◌++◌, OnOk};
ghost use Rattle.hunt_command.specs.Text.{spelt, outcome_text, hunt_text};

use line_text::{Name, NoMemory, put_name, put_u64};
use std::alloc::Global;
use wide_bisect::{Wide, WideOutcome};

/// Puts the line of a search behind some bytes: what it came to, by the names of the commits, and after how many rounds.
///
/// Where there is no memory, a part of it may stand behind them.
pub fn put_hunt(
    alloc: Global,
    out: &mut Vec<u8>,
    names: &[Name],
    search: &Wide,
) -> Result<(), NoMemory>
    ensures { OnOk result (out.new.items ≡ out.old.items ++ hunt_text names.now search.now) }
{
    put_outcome(alloc, out, names, search.outcome())?;
    out.extend_from_slice(b" rounds ")?;
    put_u64(alloc, out, search.rounds())?;
    out.push(b'\n')?;
    Ok(())
}

// What the search came to.
fn put_outcome(
    alloc: Global,
    out: &mut Vec<u8>,
    names: &[Name],
    outcome: WideOutcome,
) -> Result<(), NoMemory>
    ensures { OnOk result (out.new.items ≡ out.old.items ++ outcome_text names.now outcome) }
{
    match outcome {
        WideOutcome::Asks => Ok(()),
        WideOutcome::Found { lo, hi, skipped } => put_found(alloc, out, names, lo, hi, skipped),
        WideOutcome::Undecided { place, status } => {
            out.extend_from_slice(b"undecided ")?;
            put_commit(alloc, out, names, place)?;
            out.push(b' ')?;
            put_u64(alloc, out, u64::from(status))
        }
        WideOutcome::Faulted { place } => {
            out.extend_from_slice(b"faulted ")?;
            put_commit(alloc, out, names, place)
        }
    }
}

// The two commits that were found, and how many stand between them.
fn put_found(
    alloc: Global,
    out: &mut Vec<u8>,
    names: &[Name],
    lo: u64,
    hi: u64,
    skipped: u64,
) -> Result<(), NoMemory>
    ensures { OnOk result (out.new.items
        ≡ out.old.items ++ outcome_text names.now (WideOutcome.Found lo hi skipped)) }
{
    out.extend_from_slice(b"found ")?;
    put_commit(alloc, out, names, lo)?;
    out.push(b' ')?;
    put_commit(alloc, out, names, hi)?;
    out.extend_from_slice(b" skipped ")?;
    put_u64(alloc, out, skipped)
}

// The name of the commit at a place.
fn put_commit(alloc: Global, out: &mut Vec<u8>, names: &[Name], place: u64) -> Result<(), NoMemory>
    ensures { OnOk result (out.new.items ≡ out.old.items ++ spelt names.now place) }
{
    match names.get(place as usize) {
        Some(name) => put_name(alloc, out, name),
        None => Ok(()),
    }
}
