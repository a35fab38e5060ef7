//! What is left of the workers' work, once the room is closed.
ghost use Rattle.std.specs.{Prelude.OnOk, List.{AllByRecursion, AllZip}};
ghost use Rattle.history_model.specs.declared.entries.Author.TheVariants.{Recompute};
ghost use Rattle.play_crew.specs.Sights.{tracks_of};
ghost use Rattle.recompute_workers.specs.Recomputing.{AddsPublications};
ghost use Rattle.worker_crew.specs.{Runs.BisectsEach, Last.{HasQuietJobs, HasQuietSeries}};

use crate::NoMemory;
use bisect_workers::bisect_last;
use recompute_workers::{TrackState, recompute_last};
use std::alloc::Global;
use track_outside::Runner;

/// Publishes each stale series of each machine, as the first worker that recomputes. Where there is no memory, what was
/// published stands, and the machines behind are as they were.
pub fn recompute_each(alloc: Global, states: &mut [TrackState]) -> Result<(), NoMemory>
    ensures added { AllZip (AddsPublications (Recompute 1))
        (tracks_of states.old) (tracks_of states.new) }
    ensures quiet { OnOk result (AllByRecursion HasQuietSeries (tracks_of states.new)) }
{
    let Some((first, rest)) = states.split_first_mut() else {
        return Ok(());
    };
    recompute_last(alloc, first)?;
    recompute_each(alloc, rest)
}

/// Bisects the machines one after another with one runner, as the first worker that bisects. Where there is no memory, what
/// was said stands, and the machines behind are as they were.
pub fn bisect_each<A: Runner>(
    alloc: Global,
    states: &mut [TrackState],
    test: &str,
    runner: &mut A,
) -> Result<(), NoMemory>
    ensures bisected { BisectsEach test.now (tracks_of states.old) (tracks_of states.new)
        (record { asks = A.asked runner.old; faults = A.faults runner.old })
        (record { asks = A.asked runner.new; faults = A.faults runner.new }) }
    ensures quiet { OnOk result (AllByRecursion HasQuietJobs (tracks_of states.new)) }
{
    let Some((first, rest)) = states.split_first_mut() else {
        return Ok(());
    };
    bisect_last(alloc, first, test, runner)?;
    bisect_each(alloc, rest, test, runner)
}
