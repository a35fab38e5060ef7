//! What workers say of the places that jobs ask.
ghost use Rattle.std.specs.Prelude.{◌≡◌, ◌<◌, [], ◌∷◌, IfOk, IsSome, OnErr, length};
ghost use Rattle.metric_table.specs.Limits.{most};
ghost use Rattle.metric_table.specs.declared.limits.Limit.TheVariants as limit;
ghost use Rattle.bisect_core.specs.Bisections as bisection;
ghost use Rattle.history_model.specs.{Allowed.{Allowed, first_passed}, Entries.entries_of, Jobs.{job_in, jobs}};
ghost use Rattle.history_model.specs.declared.entries.Entry.TheVariants as entry;
ghost use Rattle.track_follow.specs.Settling.{IsPut, IsSettled, said_of};

use crate::NoMemory;
use bisect_core::{Answered, Job, Outcome};
use history_model::{Author, Entry, JobEvent, within_law};
use metric_table::Limit;
use track_model::say_law;
use track_replay::MachineState;

/// What became of something that was said of a place of a job.
#[derive(Clone, Copy, Debug, PartialEq, Eq)]
pub enum Settled {
    /// It was added in this step.
    Recorded(u64),
    /// The job asks this other place.
    NotAsked(u64),
    /// The job is closed, with this outcome.
    Closed(Outcome),
    /// There is no room for another entry.
    Full,
}

// What a job answers to something that is said of a place.
fn answer_to(job: &Job, place: u64) -> Answered
    ensures { result ≡ bisection.answer_to job.now.outcome place }
{
    match job.outcome() {
        Outcome::Asks(asked) if asked == place => Answered::Ok,
        Outcome::Asks(asked) => Answered::NotAsked(asked),
        closed => Answered::Closed(closed),
    }
}

// The status of the test of a place, or that no test could be had of it.
fn said_of(job: u64, place: u64, status: Option<u8>) -> JobEvent
    ensures { result ≡ said_of job place status }
{
    match status {
        Some(status) => JobEvent::Answer { job, place, status },
        None => JobEvent::GiveUp { job, place },
    }
}

// Adds what is said of a job, where there is room for a step.
fn put_said(track: &mut MachineState, author: Author, event: JobEvent) -> Result<Settled, NoMemory>
    requires { length (entries_of track.old.history) < most limit.Steps
        → Allowed (entries_of track.old.history) (entry.Job event) }
    ensures put { IfOk result (λ told. IsPut
        (first_passed (limit.Steps ∷ []) (entries_of track.old.history) (entry.Job event))
        track.old author (entry.Job event) told track.new) }
    ensures same { OnErr result (track.new ≡ track.old) }
{
    within_law();
    if track.len() >= Limit::Steps.most() {
        return Ok(Settled::Full);
    }
    let step = track.add(author, Entry::Job { event }, 0)?;
    Ok(Settled::Recorded(step))
}

/// The test of a place of a job ended with this status, or none could be had: it is added where the job asks that place
/// and there is room for a step. Linear in the open jobs where it ends its own, else constant time.
pub fn settle(
    track: &mut MachineState,
    author: Author,
    job: u64,
    place: u64,
    status: Option<u8>,
) -> Result<Settled, NoMemory>
    requires { IsSome (job_in job (jobs (entries_of track.old.history))) }
    ensures settled { IfOk result
        (λ told. IsSettled track.old author job place status told track.new) }
    ensures same { OnErr result (track.new ≡ track.old) }
{
    say_law();
    track.history_law();
    let Some(found) = track.jobs().get(job) else {
        unreachable!();
    };
    match answer_to(found, place) {
        Answered::NotAsked(asked) => Ok(Settled::NotAsked(asked)),
        Answered::Closed(outcome) => Ok(Settled::Closed(outcome)),
        Answered::Ok => put_said(track, author, said_of(job, place, status)),
    }
}
