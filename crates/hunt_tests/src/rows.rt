//! Worked hunts: what is printed, how each ends, and what was asked of which runner.
use hunt_command::Refusal::Bad;
use hunt_command::Stop::{Fault, Refused};
use hunt_command::{HuntEnd, hunt_commits};
use std::alloc::Global;
use std::sync::Wait;
use std::test::Fail;
use std::thread::Threads;
use track_outside::{MemRunner, MemSink, MemSource};

/// How many are asked at once, the input, the statuses of commits whose names are `c` and a number, how it ends, and what it
/// prints.
type Row<'a> = (u8, &'a str, &'a [(u64, u8)], HuntEnd, &'a str);

const NINE: &str = "c0\nc1\nc2\nc3\nc4\nc5\nc6\nc7\nc8\n";

const ROWS: [Row; 17] = [
    (
        3,
        NINE,
        &[(2, 0), (4, 0), (6, 125), (5, 1), (7, 1)],
        HuntEnd::Done,
        "found c4 c5 skipped 0 rounds 2\n",
    ),
    (
        3,
        NINE,
        &[(2, 0), (4, 0), (6, 125), (5, 125), (7, 1)],
        HuntEnd::Done,
        "found c4 c7 skipped 2 rounds 2\n",
    ),
    (
        3,
        NINE,
        &[(2, 0), (4, 200), (6, 125)],
        HuntEnd::Done,
        "undecided c4 200 rounds 1\n",
    ),
    (
        3,
        NINE,
        &[(2, 0), (6, 125)],
        HuntEnd::Done,
        "faulted c4 rounds 1\n",
    ),
    (2, "c0", &[], HuntEnd::TooFew(1), ""),
    (2, "", &[], HuntEnd::TooFew(0), ""),
    (2, "# c0\n\n  \n c1 \n", &[], HuntEnd::TooFew(1), ""),
    (
        2,
        "c0\nc1",
        &[],
        HuntEnd::Done,
        "found c0 c1 skipped 0 rounds 0\n",
    ),
    (
        1,
        "# a comment of words\n\n  c%30  \n%63%31\nb%2Cd\n",
        &[(1, 1)],
        HuntEnd::Done,
        "found c0 c1 skipped 0 rounds 1\n",
    ),
    (1, "a b", &[], HuntEnd::Stopped(Refused(Bad, 1)), ""),
    (
        1,
        "c0\n#\nc1 c2\n",
        &[],
        HuntEnd::Stopped(Refused(Bad, 3)),
        "",
    ),
    (
        1,
        "c0\nc1\nc0\nc3 c4\n",
        &[],
        HuntEnd::Stopped(Refused(Bad, 3)),
        "",
    ),
    (
        1,
        "c0\nc1\n%63%30\n",
        &[],
        HuntEnd::Stopped(Refused(Bad, 3)),
        "",
    ),
    (1, "c0\n%zz\n", &[], HuntEnd::Stopped(Refused(Bad, 2)), ""),
    (1, "c0\n%zz", &[], HuntEnd::Stopped(Refused(Bad, 2)), ""),
    (1, " # c0\n", &[], HuntEnd::Stopped(Refused(Bad, 1)), ""),
    (
        8,
        "c0\nc1\nc2\n",
        &[(1, 0)],
        HuntEnd::Done,
        "found c1 c2 skipped 0 rounds 1\n",
    ),
];

/// Inputs whose second read fails: a line that had begun is refused, or may go on.
const FAILING: [Row; 9] = [
    (1, "c0\nc1\nc0", &[], HuntEnd::Stopped(Fault), ""),
    (1, "c0\nc1\nc2  ", &[], HuntEnd::Stopped(Fault), ""),
    (1, "c0\nc1\nc0 ", &[], HuntEnd::Stopped(Refused(Bad, 3)), ""),
    (1, "c0\nc1\n%zz", &[], HuntEnd::Stopped(Refused(Bad, 3)), ""),
    (1, "c0\nc1\n%6", &[], HuntEnd::Stopped(Fault), ""),
    (1, "c0\nc1\n%e2%82", &[], HuntEnd::Stopped(Fault), ""),
    (
        1,
        "c0\nc1\n%c3c",
        &[],
        HuntEnd::Stopped(Refused(Bad, 3)),
        "",
    ),
    (1, "c0\nc1 c", &[], HuntEnd::Stopped(Refused(Bad, 2)), ""),
    (1, "c0\nc0\nc1", &[], HuntEnd::Stopped(Refused(Bad, 2)), ""),
];

// Eight runners that answer alike.
fn runners_of(alloc: Global, answers: &[(u64, u8)]) -> Option<Vec<MemRunner>> {
    let mut runners = Vec::new(alloc);
    for _ in 0..8u8 {
        let Ok(runner) = MemRunner::new(alloc, answers, &[]) else {
            return None;
        };
        if runners.push(runner).is_err() {
            return None;
        }
    }
    Some(runners)
}

// Whether a hunt over the runners ends so, and prints this, where these reads of the input fail.
fn ends_so<W: Threads + Wait + Sync>(
    rt: &W,
    alloc: Global,
    row: &Row,
    fails: &[u64],
    runners: &mut Vec<MemRunner>,
) -> bool {
    let Ok(mut input) = MemSource::new(alloc, row.1.as_bytes(), fails) else {
        return false;
    };
    let Ok(mut out) = MemSink::new(alloc, 1_000, &[]) else {
        return false;
    };
    if runners.len() < 8 || row.0 == 0 || row.0 > 8 {
        return false;
    }
    let end = hunt_commits(rt, alloc, row.0, "t", &mut input, &mut out, runners);
    end == row.3 && out.bytes() == row.4.as_bytes()
}

fn holds<W: Threads + Wait + Sync>(rt: &W, alloc: Global, row: &Row, fails: &[u64]) -> bool {
    match runners_of(alloc, row.2) {
        Some(mut runners) => ends_so(rt, alloc, row, fails, &mut runners),
        None => false,
    }
}

#[test]
fn worked_hunts_end_as_they_should(rt: HostRuntime) {
    for row in &ROWS {
        assert!(rt; holds(&rt, rt.alloc(), row, &[]), "{}", row.1);
    }
}

#[test]
fn a_line_that_is_cut_by_a_fault_is_judged_first(rt: HostRuntime) {
    for row in &FAILING {
        assert!(rt; holds(&rt, rt.alloc(), row, &[2]), "{}", row.1);
    }
}

// Whether the runner was asked the test of these commits, and of no more.
fn was_asked(runner: &MemRunner, commits: &[&str]) -> bool {
    for (i, commit) in commits.iter().enumerate() {
        match runner.asked(i) {
            Some((test, name, _)) => {
                if test != "t" || name != *commit {
                    return false;
                }
            }
            None => return false,
        }
    }
    runner.asked(commits.len()).is_none()
}

#[test]
fn each_place_of_a_round_is_asked_of_its_runner(rt: HostRuntime) -> Result<(), Fail> {
    let Some(mut runners) = runners_of(rt.alloc(), ROWS[0].2) else {
        return Err(Fail::new("no memory"));
    };
    assert!(rt; ends_so(&rt, rt.alloc(), &ROWS[0], &[], &mut runners));
    let asked: [&[&str]; 4] = [&["c2", "c5"], &["c4", "c7"], &["c6"], &[]];
    for (i, commits) in asked.iter().enumerate() {
        match runners.get(i) {
            Some(runner) => assert!(rt; was_asked(runner, commits)),
            None => return Err(Fail::new("no runner")),
        }
    }
    Ok(())
}
