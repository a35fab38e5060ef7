//! Bisections: how one is begun, answered and resumed, and what is told of it.
ghost use Rattle.std.specs.Prelude.{◌≡◌, ◌+◌, [], ◌∷◌, ◌++◌, IfOk, OnErr, Some, length};
ghost use Rattle.history_model.specs.{Allowed.Allowed, Commits.number_of, Entries.entries_of, Jobs.{MayHappen, asked, job_in, jobs}};
ghost use Rattle.history_model.specs.declared.entries.Entry.TheVariants as entry;
ghost use Rattle.history_model.specs.declared.events.JobEvent.TheVariants as job_event;
ghost use Rattle.track_model.specs.Following as following;
ghost use Rattle.track_model.specs.{Replies.reply_of, Tracks.IsStep};

use crate::NoMemory;
use bisect_core::Job;
use history_model::{Author, Entry, JobEvent, between_law, growth_law, jobs_law};
use line_text::{Duplicate, Name};
use metric_table::Limit;
use report_lines::{asked, told};
use report_model::Told;
use request_model::{Answer, Refusal, Reply};
use track_model::{begin_law, say_law, steps_law};
use track_replay::{MachineState, open_after};

// Where a job stands, its commits by name.
fn standing(track: &MachineState, number: u64, job: &Job) -> Result<Told, NoMemory>
    requires { job_in number (jobs (entries_of track.now.history)) ≡ Some job.now }
    ensures { IfOk result
        (λ told. told ≡ following.told_of (entries_of track.now.history) job.now) }
{
    jobs_law();
    track.history_law();
    told(track.alloc(), track.commits(), job)
}

/// `job M JOB`: where a job stands; adds nothing. Takes the time of look-ups.
pub fn job(track: &MachineState, number: u64) -> Result<Reply, NoMemory>
    ensures { IfOk result (λ reply. reply ≡ reply_of (entries_of track.now.history)
        (following.job (entries_of track.now.history) number)) }
{
    let Some(job) = track.jobs().get(number) else {
        return Ok(track.told(Answer::Refused(Refusal::UnknownJob)));
    };
    let outcome = standing(track, number, job)?;
    Ok(track.told(Answer::Job {
        job: number,
        range: job.range(),
        questions: job.questions(),
        outcome,
    }))
}

// Adds what becomes of a job, and tells of the job as it stands then.
fn put_job(
    track: &mut MachineState,
    author: Author,
    event: JobEvent,
    number: u64,
    job: &Job,
) -> Result<Reply, NoMemory>
    requires allowed { Allowed (entries_of track.old.history) (entry.Job event) }
    requires there { job_in number (jobs (entries_of track.old.history ++ entry.Job event ∷ []))
        ≡ Some job.now }
    ensures step { IfOk result (λ reply. IsStep track.old author
        (record {
          answer = following.job_answer
              (entries_of track.old.history ++ entry.Job event ∷ []) number;
          adds = Some (entry.Job event);
        })
        track.new reply) }
    ensures same { OnErr result (track.new ≡ track.old) }
{
    growth_law();
    jobs_law();
    track.history_law();
    let answer = Answer::Job {
        job: number,
        range: job.range(),
        questions: job.questions(),
        outcome: told(track.alloc(), track.commits(), job)?,
    };
    let step = track.add(author, Entry::Job { event }, 0)?;
    Ok(Reply { step, answer })
}

// How many jobs there would be after one more is begun.
fn next_number(track: &MachineState) -> u64
    ensures { result ≡ length (jobs (entries_of track.now.history)) + 1 }
{
    track.history_law();
    track.jobs().len() + 1
}

// The job that would be begun between two commits.
fn begun(track: &MachineState, lo: u64, hi: u64) -> Result<Job, NoMemory>
    requires { MayHappen (entries_of track.now.history) (job_event.Begin lo hi) }
    ensures { IfOk result (λ job.
        jobs (entries_of track.now.history ++ entry.Job (job_event.Begin lo hi) ∷ [])
        ≡ jobs (entries_of track.now.history) ++ job ∷ []) }
{
    jobs_law();
    between_law();
    track.history_law();
    let commits = track.commits().between(track.alloc(), lo, hi)?;
    let Ok(job) = Job::begin(commits) else {
        unreachable!();
    };
    Ok(job)
}

// Begins a job between two commits, where no limit is passed.
fn begin(track: &mut MachineState, author: Author, lo: u64, hi: u64) -> Result<Reply, NoMemory>
    requires { MayHappen (entries_of track.old.history) (job_event.Begin lo hi) }
    ensures step { IfOk result (λ reply. IsStep track.old author
        (following.begin (entries_of track.old.history) lo hi) track.new reply) }
    ensures same { OnErr result (track.new ≡ track.old) }
{
    begin_law();
    track.history_law();
    if open_after(track, lo, hi)? > Limit::Jobs.most() {
        return Ok(track.told(Answer::Refused(Refusal::Full(Limit::Jobs))));
    }
    if track.len() >= Limit::Steps.most() {
        return Ok(track.told(Answer::Refused(Refusal::Full(Limit::Steps))));
    }
    let job = begun(track, lo, hi)?;
    let number = next_number(track);
    put_job(track, author, JobEvent::Begin { lo, hi }, number, &job)
}

/// `bisect M LO HI`: begins a job over the commits declared from one to another, the first stated good and the last one
/// bad. Linear in the number of these commits.
pub fn bisect(
    track: &mut MachineState,
    author: Author,
    lo: &Name,
    hi: &Name,
) -> Result<Reply, NoMemory>
    ensures step { IfOk result (λ reply. IsStep track.old author
        (following.bisect (entries_of track.old.history) lo.now hi.now) track.new reply) }
    ensures same { OnErr result (track.new ≡ track.old) }
{
    let Some(lo) = track.number_of(lo) else {
        return Ok(track.told(Answer::Refused(Refusal::UnknownCommit)));
    };
    let Some(hi) = track.number_of(hi) else {
        return Ok(track.told(Answer::Refused(Refusal::UnknownCommit)));
    };
    if lo >= hi {
        return Ok(track.told(Answer::Refused(Refusal::BadRange)));
    }
    begin(track, author, lo, hi)
}

// Why a job can't be resumed.
fn resume_refusal(track: &MachineState, number: u64, job: &Job) -> Result<Option<Answer>, NoMemory>
    requires { job_in number (jobs (entries_of track.now.history)) ≡ Some job.now }
    ensures { IfOk result (λ answer. answer
        ≡ following.resume_refusal (entries_of track.now.history) job.now) }
{
    match standing(track, number, job)? {
        Told::Asks(commit) => Ok(Some(Answer::Refused(Refusal::JobOpen(commit)))),
        Told::Found { lo, hi } => {
            let found = Told::Found { lo, hi };
            Ok(Some(Answer::Refused(Refusal::JobClosed(found))))
        }
        Told::Undecided { .. } => Ok(None),
        Told::Faulted(_) => Ok(None),
    }
}

/// `resume M JOB`: begins a job over what a job left that ended undecided or faulted, with the commits declared by now.
/// Linear in the number of these commits.
pub fn resume(track: &mut MachineState, author: Author, number: u64) -> Result<Reply, NoMemory>
    ensures step { IfOk result (λ reply. IsStep track.old author
        (following.resume (entries_of track.old.history) number) track.new reply) }
    ensures same { OnErr result (track.new ≡ track.old) }
{
    jobs_law();
    track.history_law();
    let Some(job) = track.jobs().get(number) else {
        return Ok(track.told(Answer::Refused(Refusal::UnknownJob)));
    };
    if let Some(answer) = resume_refusal(track, number, job)? {
        return Ok(track.told(answer));
    }
    let lo = job.low_commit();
    let hi = job.high_commit();
    begin(track, author, lo, hi)
}

// The job as it would stand after the status of the test of the place that it asks.
fn answered(track: &MachineState, number: u64, place: u64, status: u8) -> Result<Job, NoMemory>
    requires { asked number (entries_of track.now.history) ≡ Some place }
    ensures { IfOk result (λ job. job_in number (jobs (entries_of track.now.history
        ++ entry.Job (job_event.Answer number place status) ∷ [])) ≡ Some job) }
{
    jobs_law();
    let Some(job) = track.jobs().get(number) else {
        unreachable!();
    };
    let mut job = job.copy(track.alloc())?;
    let _ = job.answer(place, status);
    Ok(job)
}

// Says that the place that a job asks was tested, where there is room for a step.
fn say(
    track: &mut MachineState,
    author: Author,
    number: u64,
    place: u64,
    status: u8,
) -> Result<Reply, NoMemory>
    requires { asked number (entries_of track.old.history) ≡ Some place }
    ensures step { IfOk result (λ reply. IsStep track.old author
        (following.say (entries_of track.old.history) number
        (job_event.Answer number place status)) track.new reply) }
    ensures same { OnErr result (track.new ≡ track.old) }
{
    say_law();
    steps_law();
    track.history_law();
    if track.len() >= Limit::Steps.most() {
        return Ok(track.told(Answer::Refused(Refusal::Full(Limit::Steps))));
    }
    let job = answered(track, number, place, status)?;
    let event = JobEvent::Answer {
        job: number,
        place,
        status,
    };
    put_job(track, author, event, number, &job)
}

// Why a job doesn't take the test of a commit.
fn answer_refusal(
    track: &MachineState,
    number: u64,
    job: &Job,
    commit: &Name,
) -> Result<Option<Answer>, NoMemory>
    requires { job_in number (jobs (entries_of track.now.history)) ≡ Some job.now }
    ensures { IfOk result (λ answer. answer ≡ following.answer_refusal
        (entries_of track.now.history) job.now
        (number_of commit.now (entries_of track.now.history))) }
{
    jobs_law();
    track.history_law();
    let Some(commit) = track.number_of(commit) else {
        return Ok(Some(Answer::Refused(Refusal::UnknownCommit)));
    };
    match standing(track, number, job)? {
        Told::Asks(name) => {
            if asked(job) == commit {
                return Ok(None);
            }
            Ok(Some(Answer::Refused(Refusal::NotAsked(name))))
        }
        closed => Ok(Some(Answer::Refused(Refusal::JobClosed(closed)))),
    }
}

/// `answer M JOB COMMIT STATUS`: the commit that a job asks was tested, and its test ended with this status. Linear in
/// the number of the job's commits.
pub fn answer_job(
    track: &mut MachineState,
    author: Author,
    number: u64,
    commit: &Name,
    status: u8,
) -> Result<Reply, NoMemory>
    ensures step { IfOk result (λ reply. IsStep track.old author
        (following.answer_job (entries_of track.old.history) number commit.now status)
        track.new reply) }
    ensures same { OnErr result (track.new ≡ track.old) }
{
    let Some(job) = track.jobs().get(number) else {
        return Ok(track.told(Answer::Refused(Refusal::UnknownJob)));
    };
    if let Some(answer) = answer_refusal(track, number, job, commit)? {
        return Ok(track.told(answer));
    }
    let Some(place) = job.question() else {
        unreachable!();
    };
    say(track, author, number, place, status)
}
