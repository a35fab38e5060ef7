//! Scripts on the machines of a store whose calls fail, or whose source does.
use crate::tests::run::{Fails, NO_FAILS, Run, ends_over};
use std::alloc::Global;
use track_outside::{Keeper, MemKeeper};
use tracker_top::Status;

// A run: its script, the status, the output and the line.
type Stored = (&'static str, Status, &'static str, &'static str);

const FIRST: &str = "machine m1\ncommit m1 10 a\ntune m1 B/op 50\n";

const REPLIES: &str = "@0 machine m1\n@1 commit 10 a\n@2 tuned B/op 50\n";

const ROWS: [&str; 4] = [
    "format 2",
    "machine m1",
    "entry m1 commit 10 a",
    "entry m1 tune B/op 50 1",
];

// The calls of the source that fail, and what is answered before.
const READS: [(u64, &str); 2] = [(1, ""), (2, REPLIES)];

// The keeper's calls of which one fails, runs one after another, and the rows behind them.
const STORED: [(&[u64], &[Stored], &[&str]); 4] = [
    (
        &[1, 2],
        &[(FIRST, Status::StoreFault, "", "store fault\n")],
        &[],
    ),
    (
        &[3],
        &[(FIRST, Status::StoreFault, REPLIES, "store fault\n")],
        &[],
    ),
    (
        &[4, 5, 6, 7, 8, 9],
        &[
            (FIRST, Status::Done, REPLIES, ""),
            ("machine m2", Status::StoreFault, "", "store fault\n"),
        ],
        &ROWS,
    ),
    (
        &[10],
        &[
            (FIRST, Status::Done, REPLIES, ""),
            (
                "machine m2",
                Status::StoreFault,
                "@0 machine m2\n",
                "store fault\n",
            ),
        ],
        &ROWS,
    ),
];

#[test]
fn rows_are_kept_or_a_fault_is_told(rt: HostRuntime) {
    for (fails, runs, rows) in &STORED {
        for call in *fails {
            assert!(rt; runs_over(rt.alloc(), *call, runs, rows), "{call}");
        }
    }
}

#[test]
fn a_read_fault_leaves_the_rows(rt: HostRuntime) {
    for (read, told) in &READS {
        assert!(rt; faults_at(rt.alloc(), *read, told));
    }
}

// Whether the runs end so over one keeper whose call of that number fails, and it has these rows then.
fn runs_over(alloc: Global, fails: u64, runs: &[Stored], rows: &[&str]) -> bool {
    match MemKeeper::new(alloc, &[fails]) {
        Ok(mut keeper) => each_ends(alloc, &mut keeper, runs) && has_rows(alloc, &mut keeper, rows),
        Err(_) => false,
    }
}

fn each_ends(alloc: Global, keeper: &mut MemKeeper, runs: &[Stored]) -> bool {
    for run in runs {
        if !run_ends(alloc, keeper, run) {
            return false;
        }
    }
    true
}

fn run_ends(alloc: Global, keeper: &mut MemKeeper, stored: &Stored) -> bool {
    let run = Run {
        words: "apply --store t",
        input: stored.0.as_bytes(),
        fails: NO_FAILS,
        status: stored.1,
        out: stored.2.as_bytes(),
        err: stored.3,
    };
    ends_over(alloc, &run, keeper)
}

// Whether the run ends as reading fails at that call, with these replies, and nothing is kept.
fn faults_at(alloc: Global, read: u64, told: &str) -> bool {
    match MemKeeper::new(alloc, &[]) {
        Ok(mut keeper) => {
            faults_over(alloc, &mut keeper, read, told) && has_rows(alloc, &mut keeper, &[])
        }
        Err(_) => false,
    }
}

fn faults_over(alloc: Global, keeper: &mut MemKeeper, read: u64, told: &str) -> bool {
    let run = Run {
        words: "apply --store t",
        input: FIRST.as_bytes(),
        fails: Fails {
            reads: &[read],
            ..NO_FAILS
        },
        status: Status::ReadFault,
        out: told.as_bytes(),
        err: "read fault\n",
    };
    ends_over(alloc, &run, keeper)
}

/// Whether the keeper has these rows.
pub fn has_rows(alloc: Global, keeper: &mut MemKeeper, rows: &[&str]) -> bool {
    if keeper.count().ok() != Some(rows.len() as u64) {
        return false;
    }
    for k in 0..rows.len() {
        if !has_row(alloc, keeper, k as u64 + 1, rows[k].as_bytes()) {
            return false;
        }
    }
    true
}

fn has_row(alloc: Global, keeper: &mut MemKeeper, k: u64, bytes: &[u8]) -> bool {
    match keeper.count() {
        Ok(count) if 1 <= k && k <= count => match keeper.row(alloc, k) {
            Ok(row) => row.as_slice() == bytes,
            Err(_) => false,
        },
        _ => false,
    }
}
