//! What `play` leaves, and how it ends, where a file can't be opened, a transcript has no room, or the store fails.
use crate::tests::run::{File, PLAIN, Played, plays, plays_over};
use std::alloc::Global;
use std::sync::Wait;
use std::thread::Threads;
use track_outside::MemKeeper;
use tracker_top::Status;

const ONE: &str = "commit m1 10 a\n";

const TWO: Played<'static> = Played {
    words: &["play", "--machines", "m1", "s1", "s2"],
    files: &[("s1", ONE), ("s2", ONE), ("s1.out", "x"), ("s2.out", "x")],
    ..PLAIN
};

// The transcripts before any was created, and behind the first.
const UNOPENED: &[File] = &[("s1.out", "x"), ("s2.out", "x")];

const OPENED: &[File] = &[("s1.out", ""), ("s2.out", "x")];

// An open or a create that fails ends the run before any script is answered.
#[test]
fn files_can_not_be_opened(rt: HostRuntime) {
    let read = Played {
        status: Status::ReadFault,
        err: "read fault\n",
        ..TWO
    };
    let write = Played {
        status: Status::WriteFault,
        err: "write fault\n",
        ..TWO
    };
    let rows: [(&[u64], &Played, &[File]); 4] = [
        (&[1], &read, UNOPENED),
        (&[2], &write, UNOPENED),
        (&[3], &read, OPENED),
        (&[4], &write, OPENED),
    ];
    for (fails, run, left) in &rows {
        let run = Played {
            fails,
            left,
            ..**run
        };
        assert!(rt; plays(&rt, rt.alloc(), &run), "{fails:?}");
    }
}

// A transcript that has no room stops its script, and no other; what was answered is in the journals.
#[test]
fn a_transcript_has_no_room(rt: HostRuntime) {
    let run = Played {
        words: &["play", "--machines", "m1,m2", "s1", "s2"],
        files: &[
            ("s1", ONE),
            ("s2", "commit m2 10 a\ncommit m2 20 b\ncommit m2 30 c\n"),
        ],
        room: 20,
        status: Status::WriteFault,
        out: "machine m1 steps 1\n1 s1 commit 10 a\nmachine m2 steps 2\n1 s2 commit 10 a\n2 s2 commit 20 b\n",
        err: "write fault\n",
        left: &[
            ("s1.out", "@1 commit 10 a\n"),
            ("s2.out", "@1 commit 10 a\n@2 co"),
        ],
        ..PLAIN
    };
    assert!(rt; plays(&rt, rt.alloc(), &run));
}

const STORED: Played<'static> = Played {
    words: &["play", "--store", "t", "--machines", "m1", "s1"],
    files: &[("s1", ONE)],
    out: "machine m1 steps 1\n1 s1 commit 10 a\n",
    left: &[("s1.out", "@1 commit 10 a\n")],
    ..PLAIN
};

const UNKEPT: Played<'static> = Played {
    status: Status::StoreFault,
    err: "store fault\n",
    ..STORED
};

// The append fails: nothing is kept, and the run that comes next begins with nothing.
#[test]
fn rows_are_not_kept(rt: HostRuntime) {
    assert!(rt; plays_again(&rt, rt.alloc()));
}

// Whether the runs end so over one keeper. Its calls are its start, the count of its rows, and the append, which fails.
fn plays_again<R: Threads + Wait + Sync>(rt: &R, alloc: Global) -> bool {
    match MemKeeper::new(alloc, &[3]) {
        Ok(mut keeper) => {
            plays_over(rt, alloc, &UNKEPT, &mut keeper)
                && plays_over(rt, alloc, &STORED, &mut keeper)
        }
        Err(_) => false,
    }
}
