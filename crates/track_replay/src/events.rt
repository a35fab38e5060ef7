//! Which events of regressions and of bisections are allowed.
ghost use Rattle.std.specs.Prelude.{◌≡◌, ◌↔◌, [], ◌∷◌, ◌++◌, IfOk, IsTrue, Some};
ghost use Rattle.bisect_core.specs.Bisections.{asked_by};
ghost use Rattle.history_model.specs.{Followed.IsTurnOf, Entries.entries_of, Jobs.{MayHappen, asked, jobs, open_count}, Regressions.MayBecome};
ghost use Rattle.history_model.specs.declared.entries.Entry.TheVariants as entry;
ghost use Rattle.history_model.specs.declared.events.JobEvent.TheVariants as job_event;
ghost use Rattle.history_model.specs.declared.events.RegressionEvent.TheVariants as regression_event;
ghost use Rattle.machine_state.specs.Following.{state_if};
ghost use Rattle.track_replay.specs.Replays.{IsAllowance};

use crate::NoMemory;
use bisect_core::Job;
use history_model::{JobEvent, Raised, RegressionEvent, jobs_law, regressions_law};
use machine_state::MachineState;
use metric_table::Limit;
use regression_state::State;

// Whether a job asks a place.
fn asks_place(job: &Job, place: u64) -> bool
    ensures { IsTrue result ↔ (asked_by job.now.outcome ≡ Some place) }
{
    match job.question() {
        Some(asked) => asked == place,
        None => false,
    }
}

// Whether a change may be raised.
fn may_raise(track: &MachineState, raised: &Raised) -> bool
    ensures { IsTrue result
        ↔ MayBecome (entries_of track.now.history) (regression_event.Raise raised.now) }
{
    raised.before < raised.after
        && track.is_known(&raised.test, &raised.metric)
        && track.is_declared(raised.before)
        && track.is_declared(raised.after)
}

/// The state of a regression, where it is there.
pub fn state_of(track: &MachineState, number: u64) -> Option<State>
    ensures { result ≡ state_if (entries_of track.now.history) number }
{
    match track.regressions().get(number) {
        Some(followed) => Some(followed.state),
        None => None,
    }
}

// Whether a regression is there and may move to a state.
fn may_move(track: &MachineState, number: u64, state: State) -> bool
    ensures { IsTrue result
        ↔ MayBecome (entries_of track.now.history) (regression_event.Move number state) }
{
    match state_of(track, number) {
        Some(from) => regression_state::may_move(from, state),
        None => false,
    }
}

fn may_become(track: &MachineState, event: &RegressionEvent) -> bool
    ensures { IsTrue result ↔ MayBecome (entries_of track.now.history) event.now }
{
    match event {
        RegressionEvent::Raise { raised } => may_raise(track, raised),
        RegressionEvent::Move { regression, state } => {
            let number = *regression;
            let state = *state;
            may_move(track, number, state)
        }
    }
}

// No series is made known; none where what becomes of a regression isn't allowed.
pub(crate) fn regression_allowance(track: &MachineState, event: &RegressionEvent) -> Option<u64>
    ensures { IsAllowance (entries_of track.now.history) (entry.Regression event.now) result }
{
    regressions_law();
    track.history_law();
    if track.len() >= Limit::Steps.most() {
        return None;
    }
    if !may_become(track, event) {
        return None;
    }
    Some(0)
}

// Whether a job may be begun, but for the limits.
fn may_begin(track: &MachineState, lo: u64, hi: u64) -> bool
    ensures { IsTrue result
        ↔ MayHappen (entries_of track.now.history) (job_event.Begin lo hi) }
{
    lo < hi && track.is_declared(lo) && track.is_declared(hi)
}

// Whether a job asks a place.
fn asks(track: &MachineState, job: u64, place: u64) -> bool
    ensures { IsTrue result ↔ (asked job (entries_of track.now.history) ≡ Some place) }
{
    match track.jobs().get(job) {
        Some(job) => asks_place(job, place),
        None => false,
    }
}

/// How many jobs would be open after one more is begun.
pub fn open_after(track: &MachineState, lo: u64, hi: u64) -> Result<u64, NoMemory>
    requires { MayHappen (entries_of track.now.history) (job_event.Begin lo hi) }
    ensures { IfOk result (λ count. count ≡ open_count (jobs
        (entries_of track.now.history ++ entry.Job (job_event.Begin lo hi) ∷ []))) }
{
    jobs_law();
    track.history_law();
    let commits = track.commits().between(track.alloc(), lo, hi)?;
    let more = if commits.len() > 2 { 1 } else { 0 };
    Ok(track.jobs().open() + more)
}

fn begin_allowance(track: &MachineState, lo: u64, hi: u64) -> Result<Option<u64>, NoMemory>
    ensures { IfOk result (λ more. IsAllowance (entries_of track.now.history)
        (entry.Job (job_event.Begin lo hi)) more) }
{
    jobs_law();
    track.history_law();
    if track.len() >= Limit::Steps.most() {
        return Ok(None);
    }
    if !may_begin(track, lo, hi) {
        return Ok(None);
    }
    if open_after(track, lo, hi)? > Limit::Jobs.most() {
        return Ok(None);
    }
    Ok(Some(0))
}

// No series is made known; none where it isn't allowed that this is said of a place of a job.
fn turn_allowance(track: &MachineState, event: &JobEvent, job: u64, place: u64) -> Option<u64>
    requires { IsTurnOf job place event.now }
    ensures { IsAllowance (entries_of track.now.history) (entry.Job event.now) result }
{
    jobs_law();
    track.history_law();
    if track.len() >= Limit::Steps.most() {
        return None;
    }
    if !asks(track, job, place) {
        return None;
    }
    Some(0)
}

// No series is made known; none where what becomes of a job isn't allowed.
pub(crate) fn job_allowance(track: &MachineState, event: &JobEvent) -> Result<Option<u64>, NoMemory>
    ensures { IfOk result
        (λ more. IsAllowance (entries_of track.now.history) (entry.Job event.now) more) }
{
    match event {
        JobEvent::Begin { lo, hi } => begin_allowance(track, *lo, *hi),
        JobEvent::Answer { job, place, .. } => Ok(turn_allowance(track, event, *job, *place)),
        JobEvent::GiveUp { job, place } => Ok(turn_allowance(track, event, *job, *place)),
    }
}
