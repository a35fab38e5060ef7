//! A bisection under way: the questions that it asks, and the answers that it takes.
ghost use Rattle.std.specs.{Prelude.{◌≡◌, ◌≢◌, ◌<◌, ◌≤◌, ◌↔◌, [], length, slice_index, IsErr, IfOk, IfSome, IsTrue}, List.Sorted.IsStrictlyIncreasing};
ghost use Rattle.bisect_core.specs.{Turns.{tested, given_up}, Bisections.{Bisection, bisection, answer_to, asked_by, is_open, IsRecorded, IsCommitAt}, Bounds.IsWithinBound, Sound.IsSound, Verdicts.{seen, kept_by}};
ghost use Rattle.bisect_core.specs.declared.outcome.Answered.TheVariants as answered;

use crate::outcome::{Answered, BadRange, Outcome};
use crate::progress::{Progress, outcome_between};
use line_text::{Duplicate, NoMemory, Numbers};
use std::alloc::Global;
use std::marker::Model;

/// A bisection of a list of commits.
///
/// Contracts see where it stands. While it is open it keeps its list; a closed one has let the list go, and keeps the
/// commits of its ends and of the place that ended it.
#[derive(Clone, Drop)]
pub struct Job {
    commits: Option<Numbers>,
    progress: Progress,
}

impl Model for Job {
    ghost use Rattle.bisect_core.specs.{Bisections.Bisection, Sound.IsSound, Verdicts.seen};

    ghost Value = { Bisection };

    ghost view = { λ j. seen j.commits j.progress };

    ghost invariant = { λ j. IsSound (seen j.commits j.progress) };
}

impl Job {
    /// A bisection of these commits, before any answer: the first is stated good and the last one bad. `BadRange` where
    /// there are fewer than two. Constant time; takes no memory.
    pub fn begin(commits: Numbers) -> Result<Job, BadRange>
        requires { IsStrictlyIncreasing commits }
        ensures begun { IfOk result (λ job. job ≡ bisection commits []) }
        ensures few { IsErr result ↔ (length commits < 2) }
    {
        let count = commits.len();
        if count < 2 {
            return Err(BadRange);
        }
        let range = (count - 1) as u64;
        let low_commit = commit_at(&commits, 0);
        let high_commit = commit_at(&commits, range);
        let outcome = outcome_between(0, range);
        Ok(Job {
            commits: kept_while_open(Some(commits), outcome),
            progress: Progress {
                range,
                low: 0,
                high: range,
                questions: 0,
                outcome,
                low_commit,
                high_commit,
                end_commit: None,
            },
        })
    }

    /// The place that is asked; none where the job is closed. Constant time; takes no memory.
    pub fn question(&self) -> Option<u64>
        ensures told { result ≡ asked_by self.now.outcome }
        ensures listed { IfSome result (λ place. place ≤ self.now.range) }
    {
        match self.progress.outcome {
            Outcome::Asks(place) => Some(place),
            _ => None,
        }
    }

    /// Where it stands. Constant time; takes no memory.
    pub fn outcome(&self) -> Outcome
        ensures { result ≡ self.now.outcome }
    {
        self.progress.outcome
    }

    /// One less than the number of its commits, which is its last place. Constant time; takes no memory.
    pub fn range(&self) -> u64
        ensures { result ≡ self.now.range }
    {
        self.progress.range
    }

    /// How many answers were good or bad. Constant time; takes no memory.
    pub fn questions(&self) -> u64
        ensures told { result ≡ self.now.questions }
        ensures bound { IsWithinBound self.now.range self.now.low self.now.high self.now.questions }
    {
        self.progress.questions
    }

    /// The greatest place that is stated or was answered good. Constant time; takes no memory.
    pub fn low(&self) -> u64
        ensures { result ≡ self.now.low }
    {
        self.progress.low
    }

    /// The least place that is stated or was answered bad. Constant time; takes no memory.
    pub fn high(&self) -> u64
        ensures { result ≡ self.now.high }
    {
        self.progress.high
    }

    /// The commit at low. Constant time; takes no memory.
    pub fn low_commit(&self) -> u64
        ensures told { result ≡ self.now.low_commit }
        ensures rising { result < self.now.high_commit }
    {
        self.progress.low_commit
    }

    /// The commit at high. Constant time; takes no memory.
    pub fn high_commit(&self) -> u64
        ensures { result ≡ self.now.high_commit }
    {
        self.progress.high_commit
    }

    /// The commit at the place where it ended undecided or faulted; none of any other job. Constant time; takes no memory.
    pub fn end_commit(&self) -> Option<u64>
        ensures { result ≡ self.now.end_commit }
    {
        self.progress.end_commit
    }

    /// The commit at a place of an open job. Constant time; takes no memory.
    pub fn commit(&self, place: u64) -> u64
        requires open { IsTrue (is_open self.now.outcome) }
        requires listed { place ≤ self.now.range }
        ensures { IsCommitAt self.now.commits place result }
    {
        match &self.commits {
            Some(commits) => commit_at(commits, place),
            None => unreachable!(),
        }
    }

    /// Records the status of the test of a place, where that place is asked: 0 is good, 125 and all from 128 on can say
    /// nothing and end the job, every other status is bad. Constant time; takes no memory.
    pub fn answer(&mut self, place: u64, status: u8) -> Answered
        ensures told { result ≡ answer_to self.old.outcome place }
        ensures done { result ≡ answered.Ok → IsRecorded (tested place status) self.old self.new }
        ensures kept { result ≢ answered.Ok → self.new ≡ self.old }
    {
        let progress = self.progress;
        let Outcome::Asks(asked) = progress.outcome else {
            return Answered::Closed(progress.outcome);
        };
        if asked != place {
            return Answered::NotAsked(asked);
        }
        let commit = self.commit(place);
        self.go_on(progress.after_status(place, status, commit));
        Answered::Ok
    }

    /// Records that no test of a place could be had, where that place is asked: this ends the job. Constant time; takes no
    /// memory.
    pub fn give_up(&mut self, place: u64) -> Answered
        ensures told { result ≡ answer_to self.old.outcome place }
        ensures done { result ≡ answered.Ok → IsRecorded (given_up place) self.old self.new }
        ensures kept { result ≢ answered.Ok → self.new ≡ self.old }
    {
        let progress = self.progress;
        let Outcome::Asks(asked) = progress.outcome else {
            return Answered::Closed(progress.outcome);
        };
        if asked != place {
            return Answered::NotAsked(asked);
        }
        let commit = self.commit(place);
        self.go_on(progress.after_giving_up(place, commit));
        Answered::Ok
    }

    // Goes on from where an answer leads; a closed job lets its list go.
    fn go_on(&mut self, progress: Progress)
        requires { IsSound (seen (kept_by self.old.commits progress.outcome) progress) }
        ensures { self.new ≡ seen (kept_by self.old.commits progress.outcome) progress }
    {
        let commits = self.commits.take();
        self.commits = kept_while_open(commits, progress.outcome);
        self.progress = progress;
    }
}

/// An equal bisection of its own. Linear in the number of its commits.
impl Duplicate for Job {
    fn copy(&self, _alloc: Global) -> Result<Job, NoMemory> {
        self.clone()
    }
}

// The list, where the job is open.
fn kept_while_open(commits: Option<Numbers>, outcome: Outcome) -> Option<Numbers>
    ensures { result ≡ kept_by commits outcome }
{
    match outcome {
        Outcome::Asks(_) => commits,
        _ => None,
    }
}

// The commit at a place of a list.
fn commit_at(commits: &Numbers, place: u64) -> u64
    requires { place < length commits.now }
    ensures { result ≡ slice_index commits.now place }
{
    commits.as_slice()[place as usize]
}
