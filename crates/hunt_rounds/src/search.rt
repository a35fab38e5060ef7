//! A hunt from its first round to its end.
ghost use Rattle.std.specs.Prelude.{◌≤◌, length, IfOk};
ghost use Rattle.hunt_rounds.specs.{Asked.WereAskedOf, Hunts.IsHunted};

use crate::NoMemory;
use crate::round::ask_round;
use line_text::Name;
use std::alloc::Global;
use std::sync::Wait;
use std::thread::Threads;
use track_outside::Runner;
use wide_bisect::{Wide, WideFault, asked_law, bound_law, fewer_law};

/// Searches the commits of these names, of which the first is stated good and the last one bad, by rounds, each of which
/// asks the test of so many at once at most, until the search is closed. A failed ask ends it as faulted.
///
/// `NoMemory` where memory was wanting, here or in an ask. Waits for the tests; beside them each round is linear in the
/// places that are open.
pub fn hunt<W: Threads + Wait + Sync, A: Runner + Send>(
    rt: &W,
    alloc: Global,
    test: &str,
    names: &[Name],
    width: u8,
    runners: &mut [A],
) -> Result<Wide, NoMemory>
    requires names { (2 ≤ length names.now) × (length names.now ≤ 65_536) }
    requires width { (1 ≤ width) × (width ≤ 8) }
    requires enough { width ≤ length runners.old }
    ensures hunted { IfOk result
        (IsHunted A.Runner test.now names.now width runners.old runners.new) }
    ensures asked { WereAskedOf A.Runner test.now names.now runners.old runners.new }
{
    asked_law();
    bound_law();
    fewer_law();
    let mut search = match Wide::begin(alloc, names.len() as u64 - 1, width) {
        Ok(search) => search,
        Err(WideFault::NoMemory) => return Err(NoMemory),
        Err(WideFault::BadRange) => unreachable!(),
    };
    'rounds: loop {
        let places = search.round(alloc)?;
        if places.is_empty() {
            return Ok(search);
        }
        let statuses = ask_round(rt, alloc, test, names, places.as_slice(), runners)?;
        let _ = search.answer(&statuses);
    }
}
