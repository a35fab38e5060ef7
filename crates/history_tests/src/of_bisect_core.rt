//! Worked bisections.
ghost use Rattle.std.specs.{Prelude.IsTrue, List.Sorted.IsStrictlyIncreasing};

use bisect_core::{Answered, Job, Outcome};
use line_text::{Duplicate, Numbers};
use std::alloc::Global;

/// A place, its status (none: it is given up), what is answered, and the outcome then.
type Turn = (u64, Option<u8>, Answered, Outcome);

/// Commits and turns, and at the end the questions, the commits of both ends, and the commit that ended it.
type Case<'a> = (&'a [u64], &'a [Turn], (u64, u64, u64), Option<u64>);

const FIVE: &[u64] = &[10, 20, 30, 40, 50];

const THREE: &[u64] = &[10, 20, 30];

const FOUND: Outcome = Outcome::Found { lo: 5, hi: 6 };

const FIRST: Outcome = Outcome::Found { lo: 0, hi: 1 };

/// Neighbours among nine commits; a commit that is given up, which ends a bisection and keeps its ends; two commits.
const CASES: [Case; 3] = [
    (
        &[0, 1, 2, 3, 4, 5, 6, 7, 8],
        &[
            (5, Some(0), Answered::NotAsked(4), Outcome::Asks(4)),
            (4, Some(0), Answered::Ok, Outcome::Asks(6)),
            (6, Some(1), Answered::Ok, Outcome::Asks(5)),
            (5, Some(0), Answered::Ok, FOUND),
            (5, Some(0), Answered::Closed(FOUND), FOUND),
            (5, None, Answered::Closed(FOUND), FOUND),
        ],
        (3, 5, 6),
        None,
    ),
    (
        FIVE,
        &[(2, None, Answered::Ok, Outcome::Faulted { place: 2 })],
        (0, 10, 50),
        Some(30),
    ),
    (&[7, 9], &[], (0, 7, 9), None),
];

/// Statuses that leave a commit undecided, which ends a bisection and keeps its ends; and those by which it is bad.
const UNDECIDED: [u8; 3] = [125, 128, 255];

const BAD: [u8; 4] = [1, 124, 126, 127];

/// Whether the commits rise.
pub fn is_rising(commits: &[u64]) -> bool
    ensures { IsTrue result → IsStrictlyIncreasing commits.now }
{
    for i in 1..commits.len() {
        if commits[i - 1] >= commits[i] {
            return false;
        }
    }
    true
}

// A copy of a bisection of these commits; none where they don't rise or there is no memory.
fn begun(alloc: Global, commits: &[u64]) -> Option<Job> {
    if !is_rising(commits) {
        return None;
    }
    let listed = Vec::from_slice(alloc, commits).ok()?;
    let job = Job::begin(Numbers::of(listed)).ok()?;
    job.copy(alloc).ok()
}

// Whether each turn is answered so, with this outcome.
fn takes(job: &mut Job, turns: &[Turn]) -> bool {
    for (place, status, answered, outcome) in turns {
        let told = match status {
            Some(status) => job.answer(*place, *status),
            None => job.give_up(*place),
        };
        if told != *answered || job.outcome() != *outcome {
            return false;
        }
    }
    true
}

// Whether a bisection goes so.
fn goes(alloc: Global, case: &Case) -> bool {
    let (commits, turns, ends, end) = case;
    match begun(alloc, commits) {
        Some(mut job) => {
            takes(&mut job, turns)
                && (job.questions(), job.low_commit(), job.high_commit()) == *ends
                && job.end_commit() == *end
        }
        None => false,
    }
}

// Whether the middle one of five commits is undecided by this status.
fn is_undecided(alloc: Global, status: u8) -> bool {
    let outcome = Outcome::Undecided { place: 2, status };
    let turns = [(2, Some(status), Answered::Ok, outcome)];
    goes(alloc, &(FIVE, &turns, (0, 10, 50), Some(30)))
}

// Whether the middle one of three is bad by it.
fn is_bad(alloc: Global, status: u8) -> bool {
    let turns = [(1, Some(status), Answered::Ok, FIRST)];
    goes(alloc, &(THREE, &turns, (1, 10, 20), None))
}

#[test]
fn bisections_go_by_their_turns(rt: HostRuntime) {
    for (row, case) in CASES.iter().enumerate() {
        assert!(rt; goes(rt.alloc(), case), "row {row}");
    }
    for status in &UNDECIDED {
        assert!(rt; is_undecided(rt.alloc(), *status), "status {status}");
    }
    for status in &BAD {
        assert!(rt; is_bad(rt.alloc(), *status), "status {status}");
    }
}
