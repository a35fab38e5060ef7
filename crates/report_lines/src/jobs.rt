//! The lines of bisections, and what is told of one.
ghost use Rattle.std.specs.Prelude.{◌≡◌, All, IfOk, IsSome, IsTrue, unwrap_or};
ghost use Rattle.bisect_core.specs.Bisections.{is_open};
ghost use Rattle.track_model.specs.{Following.asked_commit, Reports.numbered};
ghost use Rattle.report_lines.specs.NumberedLines.{told_in, told_line, HasNames};

use crate::NoMemory;
use crate::names::name_of;
use bisect_core::{Job, Outcome};
use follow_index::JobIndex;
use order_index::OrderIndex;
use report_model::{JobLine, JobLines, Told};
use std::alloc::Global;

/// A line for each bisection, by number. Linear in the bisections, but for look-ups.
pub fn job_lines(alloc: Global, commits: &OrderIndex, jobs: &JobIndex) -> Result<JobLines, NoMemory>
    requires { All (HasNames commits.now) jobs.now }
    ensures { IfOk result (λ lines. lines ≡ numbered (told_line commits.now) 1 jobs.now) }
{
    let mut lines = JobLines::new(alloc);
    for i in 0..jobs.len() {
        let number = i + 1;
        let Some(job) = jobs.get(number) else {
            unreachable!();
        };
        lines.push(line(alloc, commits, number, job)?)?;
    }
    Ok(lines)
}

// The line of a bisection.
fn line(alloc: Global, commits: &OrderIndex, number: u64, job: &Job) -> Result<JobLine, NoMemory>
    requires { HasNames commits.now job.now }
    ensures { IfOk result (λ line. line ≡ told_line commits.now number job.now) }
{
    Ok(JobLine {
        job: number,
        range: job.range(),
        questions: job.questions(),
        outcome: told(alloc, commits, job)?,
    })
}

/// The commit that an open bisection asks. Constant time; takes no memory.
pub fn asked(job: &Job) -> u64
    requires open { IsTrue (is_open job.now.outcome) }
    requires kept { IsSome job.now.commits }
    ensures { result ≡ asked_commit job.now }
{
    let Some(place) = job.question() else {
        unreachable!();
    };
    job.commit(place)
}

// The commit at which a bisection ended.
fn ended(job: &Job) -> u64
    requires { IsSome job.now.end_commit }
    ensures { result ≡ unwrap_or job.now.end_commit 0 }
{
    let Some(commit) = job.end_commit() else {
        unreachable!();
    };
    commit
}

/// Where a bisection stands, with its commits by name. Takes the time of look-ups.
pub fn told(alloc: Global, commits: &OrderIndex, job: &Job) -> Result<Told, NoMemory>
    requires { HasNames commits.now job.now }
    ensures { IfOk result (λ told. told ≡ told_in commits.now job.now) }
{
    match job.outcome() {
        Outcome::Asks(_) => Ok(Told::Asks(name_of(alloc, commits, asked(job))?)),
        Outcome::Found { .. } => Ok(Told::Found {
            lo: name_of(alloc, commits, job.low_commit())?,
            hi: name_of(alloc, commits, job.high_commit())?,
        }),
        Outcome::Undecided { place: _, status } => Ok(Told::Undecided {
            commit: name_of(alloc, commits, ended(job))?,
            status,
        }),
        Outcome::Faulted { .. } => Ok(Told::Faulted(name_of(alloc, commits, ended(job))?)),
    }
}
