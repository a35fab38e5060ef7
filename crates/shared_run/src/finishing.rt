//! What is left of the workers' work once the room is closed.
ghost use Rattle.std.specs.{Prelude.{◌≡◌, ◌≤◌, ◌&&◌, [], true, length, vec_capacity}, List.AllByRecursion};
ghost use Rattle.worker_crew.specs.{Sights.tracks_of, Runs.{BisectsLast, RecomputesLast}, Last.{HasQuietJobs, HasQuietSeries}, Whole.tallies};
ghost use Rattle.shared_run.specs.Crews.{Finishes};

use crate::run::word_in;
use command_words::PlayPlan;
use machine_state::MachineState;
use std::alloc::Global;
use track_outside::Runner;
use worker_crew::{TrackState, bisect_each, leave_each, recompute_each};

// Does what the workers left of these machines, as the first worker of each kind, with the first runner, where there are workers
// of the kind; says whether there was memory for all of it. The list must have room for the machines.
pub(crate) fn finish<N: Runner>(
    alloc: Global,
    plan: &PlayPlan<'_>,
    mut left: Vec<TrackState>,
    mut journals: Vec<MachineState>,
    runners: &mut [N],
) -> (Vec<MachineState>, bool)
    requires none { journals.items ≡ [] }
    requires room { length left.items ≤ vec_capacity journals }
    requires enough { plan.now.bisect ≤ length runners.old }
    ensures done { Finishes N.Runner plan.now (tracks_of left.items) result.0.items
        runners.old runners.new result.1 }
    ensures as_many { length runners.new ≡ length runners.old }
{
    let done = finish_series(alloc, plan.recompute(), &mut left);
    let over = finish_jobs(alloc, plan.bisect(), &mut left, word_in(plan), runners);
    leave_each(left, &mut journals);
    (journals, both(done, over))
}

// Whether both are so.
pub(crate) fn both(one: bool, other: bool) -> bool
    ensures { result ≡ (one && other) }
{
    one && other
}

// Publishes what is stale, where there are workers that recompute.
fn finish_series(alloc: Global, workers: u8, states: &mut [TrackState]) -> bool
    ensures published { RecomputesLast workers (tracks_of states.old) (tracks_of states.new) }
    ensures quiet { result ≡ true → 1 ≤ workers
        → AllByRecursion HasQuietSeries (tracks_of states.new) }
{
    if workers == 0 {
        return true;
    }
    recompute_each(alloc, states).is_ok()
}

// Answers what is open, where there are workers that bisect.
fn finish_jobs<N: Runner>(
    alloc: Global,
    workers: u8,
    states: &mut [TrackState],
    test: &str,
    runners: &mut [N],
) -> bool
    requires enough { workers ≤ length runners.old }
    ensures bisected { BisectsLast workers test.now (tracks_of states.old) (tracks_of states.new)
        (tallies N.Runner runners.old) (tallies N.Runner runners.new) }
    ensures quiet { result ≡ true → 1 ≤ workers
        → AllByRecursion HasQuietJobs (tracks_of states.new) }
    ensures as_many { length runners.new ≡ length runners.old }
{
    if workers == 0 {
        return true;
    }
    let Some((runner, rest)) = runners.split_first_mut() else {
        unreachable!()
    };
    bisect_each(alloc, states, test, runner).is_ok()
}
