//! A round of asks.
ghost use Rattle.std.specs.Prelude.{◌≡◌, ◌≤◌, ◌<◌, length, All, IfOk};
ghost use Rattle.hunt_rounds.specs.{Asked.{EachWasAsked, WereAskedOf}, Rounds.{asks_at, AreAskings, AreAnswers}};

use crate::NoMemory;
use crate::asking::Asking;
use line_text::Name;
use side_by_side::work_at_once;
use std::alloc::Global;
use std::sync::Wait;
use std::thread::Threads;
use track_outside::Runner;

/// Asks the test of the commit at each of the places, of the runner in its place, at once.
pub fn ask_round<W: Threads + Wait + Sync, A: Runner + Send>(
    rt: &W,
    alloc: Global,
    test: &str,
    names: &[Name],
    places: &[u64],
    runners: &mut [A],
) -> Result<Vec<Option<u8>>, NoMemory>
    requires places { All (λ place. place < length names.now) places.now }
    requires enough { length places.now ≤ length runners.old }
    ensures many { IfOk result (λ statuses. length statuses.items ≡ length places.now) }
    ensures asked { IfOk result (λ statuses. EachWasAsked A.Runner
        (asks_at test.now names.now places.now statuses.items) runners.old runners.new) }
    ensures some { WereAskedOf A.Runner test.now names.now runners.old runners.new }
{
    let mut askings = askings(alloc, test, names, places)?;
    work_at_once(rt, &mut askings, &mut runners[..places.len()]);
    answers(alloc, &askings)
}

// The asks of the test of the commit at each of the places.
fn askings<'a>(
    alloc: Global,
    test: &'a str,
    names: &'a [Name],
    places: &[u64],
) -> Result<Vec<Asking<'a>>, NoMemory>
    requires places { All (λ place. place < length names.now) places.now }
    ensures { IfOk result (λ askings. AreAskings test.now names.now places.now askings.items) }
{
    let mut askings = Vec::with_capacity(alloc, places.len())?;
    for place in places {
        askings.push(Asking {
            alloc,
            test,
            commit: names[*place as usize].as_str(),
            answer: Err(NoMemory),
        })?;
    }
    Ok(askings)
}

// The statuses that were answered; none where one asker found no memory.
fn answers(alloc: Global, askings: &[Asking]) -> Result<Vec<Option<u8>>, NoMemory>
    ensures { IfOk result (λ statuses. AreAnswers askings.now statuses.items) }
{
    let mut statuses = Vec::with_capacity(alloc, askings.len())?;
    for asking in askings {
        statuses.push(asking.answer?)?;
    }
    Ok(statuses)
}
