//! Worked searches by rounds, and searches that ask one place at a time beside plain bisections.
ghost use Rattle.std.specs.Prelude.{◌<◌, ◌^◌};

use crate::of_bisect_core::is_rising;
use bisect_core::{Answered, Job, Outcome};
use line_text::Numbers;
use std::alloc::Global;
use wide_bisect::{Wide, WideAnswered, WideFault, WideOutcome};

/// The places that a round asks, their statuses (none: no test could be had), and where the search stands then.
type Round<'a> = (&'a [u64], &'a [Option<u8>], WideOutcome);

/// The last place, how many are asked at once, and the rounds.
type Case<'a> = (u64, u8, &'a [Round<'a>]);

const GOOD: Option<u8> = Some(0);

const BAD: Option<u8> = Some(1);

const SKIP: Option<u8> = Some(125);

/// Three of nine commits at once: found between neighbours; past two untestable places; undecided; without a test. Then
/// more at once than are open, two commits, and a good place behind a bad one, which doesn't count.
const CASES: [Case; 8] = [
    (
        8,
        3,
        &[
            (&[2, 4, 6], &[GOOD, GOOD, SKIP], WideOutcome::Asks),
            (
                &[5, 7],
                &[BAD, BAD],
                WideOutcome::Found {
                    lo: 4,
                    hi: 5,
                    skipped: 0,
                },
            ),
        ],
    ),
    (
        8,
        3,
        &[
            (&[2, 4, 6], &[GOOD, GOOD, SKIP], WideOutcome::Asks),
            (
                &[5, 7],
                &[SKIP, BAD],
                WideOutcome::Found {
                    lo: 4,
                    hi: 7,
                    skipped: 2,
                },
            ),
        ],
    ),
    (
        8,
        3,
        &[(
            &[2, 4, 6],
            &[GOOD, Some(200), SKIP],
            WideOutcome::Undecided {
                place: 4,
                status: 200,
            },
        )],
    ),
    (
        8,
        3,
        &[(
            &[2, 4, 6],
            &[GOOD, None, Some(128)],
            WideOutcome::Faulted { place: 4 },
        )],
    ),
    (
        3,
        8,
        &[(
            &[1, 2],
            &[SKIP, Some(127)],
            WideOutcome::Found {
                lo: 0,
                hi: 2,
                skipped: 1,
            },
        )],
    ),
    (1, 8, &[]),
    (
        9,
        8,
        &[(
            &[1, 2, 3, 4, 5, 6, 7, 8],
            &[GOOD, BAD, GOOD, GOOD, BAD, GOOD, GOOD, BAD],
            WideOutcome::Found {
                lo: 1,
                hi: 2,
                skipped: 0,
            },
        )],
    ),
    (
        4,
        8,
        &[(
            &[1, 2, 3],
            &[SKIP, SKIP, SKIP],
            WideOutcome::Found {
                lo: 0,
                hi: 4,
                skipped: 3,
            },
        )],
    ),
];

// Whether the search asks these places.
fn asks(alloc: Global, search: &Wide, places: &[u64]) -> bool {
    match search.round(alloc) {
        Ok(round) => round.as_slice() == places,
        Err(_) => false,
    }
}

// Whether it takes the rounds, with a wrong number of answers before each.
fn takes(alloc: Global, search: &mut Wide, rounds: &[Round]) -> bool {
    for (places, statuses, outcome) in rounds {
        if !asks(alloc, search, places) {
            return false;
        }
        if search.answer(&[]) != WideAnswered::WrongCount(places.len() as u64) {
            return false;
        }
        if search.answer(statuses) != WideAnswered::Ok || search.outcome() != *outcome {
            return false;
        }
    }
    true
}

// Whether a search goes so, and then is closed.
fn goes(alloc: Global, case: &Case) -> bool {
    let (last, width, rounds) = case;
    match Wide::begin(alloc, *last, *width) {
        Ok(mut search) => {
            takes(alloc, &mut search, rounds)
                && search.rounds() == rounds.len() as u64
                && asks(alloc, &search, &[])
                && search.answer(&[]) == WideAnswered::Closed(search.outcome())
        }
        Err(_) => false,
    }
}

#[test]
fn searches_go_by_their_rounds(rt: HostRuntime) {
    for (row, case) in CASES.iter().enumerate() {
        assert!(rt; goes(rt.alloc(), case), "row {row}");
    }
}

// Whether no search of these begins.
fn is_refused(alloc: Global, last: u64, width: u8) -> bool {
    match Wide::begin(alloc, last, width) {
        Ok(_) => false,
        Err(fault) => fault == WideFault::BadRange,
    }
}

#[test]
fn ranges_are_refused(rt: HostRuntime) {
    for (last, width) in [(0, 3), (65_536, 3), (8, 0), (8, 9)] {
        assert!(rt; is_refused(rt.alloc(), last, width), "{last} {width}");
    }
}

// ---- one at a time

// A plain bisection of the places from 0 to the last; none where there is no memory.
fn plain(alloc: Global, last: u64) -> Option<Job>
    requires { last < 2 ^ 16 }
{
    let mut places = Vec::new(alloc);
    for place in 0..last + 1 {
        places.push(place).ok()?;
    }
    rising(places)
}

// A bisection of these commits; none where they don't rise.
fn rising(commits: Vec<u64>) -> Option<Job> {
    if !is_rising(&commits) {
        return None;
    }
    Job::begin(Numbers::of(commits)).ok()
}

// Whether both ask the same places up to the end, where the places from `bad` on are bad.
fn go_together(alloc: Global, job: &mut Job, search: &mut Wide, bad: u64) -> bool {
    for _ in 0..20 {
        let Some(place) = job.question() else {
            return asks(alloc, search, &[]) && is_one(job.outcome(), search.outcome());
        };
        let status = if place < bad { 0 } else { 1 };
        if !asks(alloc, search, &[place])
            || job.answer(place, status) != Answered::Ok
            || search.answer(&[Some(status)]) != WideAnswered::Ok
        {
            return false;
        }
    }
    false
}

// Whether both found the same ends.
fn is_one(plain: Outcome, wide: WideOutcome) -> bool {
    match (plain, wide) {
        (
            Outcome::Found { lo, hi },
            WideOutcome::Found {
                lo: low,
                hi: high,
                skipped,
            },
        ) => lo == low && hi == high && skipped == 0,
        _ => false,
    }
}

// Whether both go so for each first bad place of so many.
fn agree(alloc: Global, last: u64) -> bool
    requires { last < 2 ^ 16 }
{
    for bad in 1..last + 1 {
        match (plain(alloc, last), Wide::begin(alloc, last, 1)) {
            (Some(mut job), Ok(mut search)) => {
                if !go_together(alloc, &mut job, &mut search, bad) {
                    return false;
                }
            }
            _ => return false,
        }
    }
    true
}

#[test]
fn one_at_a_time_is_a_plain_bisection(rt: HostRuntime) {
    for last in 1..257 {
        assert!(rt; agree(rt.alloc(), last), "{last}");
    }
}
