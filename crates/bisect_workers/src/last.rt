//! What is left to bisect once nobody else works.
ghost use Rattle.std.specs.Prelude.{◌≡◌, ◌<◌, ◌+◌, IfOk, OnOk, false, length, true};
ghost use Rattle.metric_table.specs.Limits.{most};
ghost use Rattle.metric_table.specs.declared.limits.Limit.TheVariants as limit;
ghost use Rattle.history_model.specs.declared.entries.Author.TheVariants as author;
ghost use Rattle.bisect_workers.specs.{Bisecting.IsBisected, Quiet.NoneAsks};
ghost use Rattle.worker_model.specs.Quiet.{JobsAreQuiet};
ghost use Rattle.track_room.specs.Work.{IsUntaken, history_of};

use crate::NoMemory;
use crate::asking::ask;
use history_model::{Author, within_law};
use metric_table::Limit;
use std::alloc::Global;
use track_outside::Runner;
use track_room::{TrackState, open_question};

// Asks the first question there is and says what was found; tells whether there was one.
fn turn<R: Runner>(
    alloc: Global,
    state: &mut TrackState,
    test: &str,
    runner: &mut R,
) -> Result<bool, NoMemory>
    requires { length (history_of state.old) < most limit.Steps }
    ensures bisected { IsBisected (author.Bisect 1) test.now state.old.track state.new.track
        (R.asked runner.old) (R.asked runner.new) (R.faults runner.old) (R.faults runner.new) }
    ensures free { IsUntaken state.old → IsUntaken state.new }
    ensures done { IfOk result (λ more. more ≡ false → NoneAsks (history_of state.new)) }
    ensures more { IfOk result (λ more. more ≡ true
        → length (history_of state.new) ≡ length (history_of state.old) + 1) }
{
    within_law();
    let Some(question) = open_question(state.track(), &[])? else {
        return Ok(false);
    };
    let status = ask(alloc, runner, test, &question)?;
    let _ = state.settle(Author::Bisect(1), &question, status)?;
    Ok(true)
}

/// Ends all claims and asks the questions of all open jobs, that of the job of the smallest number first, and says what
/// was found, as the first worker that bisects, until no job is open or there is no room for another entry. Where there
/// is no memory, what was said stands, and all claims have ended. Returns where the runner's calls do.
pub fn bisect_last<R: Runner>(
    alloc: Global,
    state: &mut TrackState,
    test: &str,
    runner: &mut R,
) -> Result<(), NoMemory>
    ensures bisected { IsBisected (author.Bisect 1) test.now state.old.track state.new.track
        (R.asked runner.old) (R.asked runner.new) (R.faults runner.old) (R.faults runner.new) }
    ensures free { IsUntaken state.new }
    ensures quiet { OnOk result (JobsAreQuiet (history_of state.new)) }
{
    state.end_claims();
    'turns: while state.len() < Limit::Steps.most() {
        if !turn(alloc, state, test, runner)? {
            return Ok(());
        }
    }
    state.track().history_law();
    Ok(())
}
