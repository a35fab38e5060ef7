//! `path`: faults, as rows for the loop of `cutting`; and each call of its objects failing in turn.
use crate::tests::cutting::{Stopped, stops};
use crate::tests::run::{Fails, NO_FAILS, READ_FAILS, Run, ends};
use std::alloc::Global;
use test_supplies::PATH_OF_FOUR;
use tracker_top::Status;

const FOUR: &str = "1 0\n2 0\n3 10\n4 10\n";

/// The words of the worked path.
pub const PATH: &str = "path 0 120";

/// Faults.
pub const PATH_STOPPED: [Stopped; 2] = [
    ("", READ_FAILS, Status::ReadFault, "read fault\n"),
    ("1 0\nx y", READ_FAILS, Status::ReadFault, "read fault\n"),
];

// The worked path with each read failing in turn, and each write, until a run meets no failure.
#[test]
fn each_call_of_a_path_fails_once(rt: HostRuntime) {
    assert!(rt; each_fails(rt.alloc(), true));
    assert!(rt; each_fails(rt.alloc(), false));
}

fn each_fails(alloc: Global, is_read: bool) -> bool {
    for k in 1..=100u64 {
        if is_whole(alloc, &failing(&[k], is_read)) {
            return k > 1;
        }
        if !is_stopped(alloc, &failing(&[k], is_read), is_read) {
            return false;
        }
    }
    false
}

fn failing<'a>(calls: &'a [u64], is_read: bool) -> Fails<'a> {
    if is_read {
        Fails {
            reads: calls,
            ..NO_FAILS
        }
    } else {
        Fails {
            writes: calls,
            ..NO_FAILS
        }
    }
}

fn is_whole(alloc: Global, fails: &Fails<'_>) -> bool {
    let run = Run {
        words: PATH,
        input: FOUR.as_bytes(),
        fails: *fails,
        status: Status::Done,
        out: PATH_OF_FOUR.as_bytes(),
        err: "",
    };
    ends(alloc, &run)
}

fn is_stopped(alloc: Global, fails: &Fails<'_>, is_read: bool) -> bool {
    if is_read {
        stops(alloc, PATH, FOUR, fails, Status::ReadFault, "read fault\n")
    } else {
        stops(
            alloc,
            PATH,
            FOUR,
            fails,
            Status::WriteFault,
            "write fault\n",
        )
    }
}
