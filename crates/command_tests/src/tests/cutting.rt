//! Faults of the outside in `cut` and `path`, and words that are no command, whose telling fails.
use crate::tests::paths::{PATH, PATH_STOPPED};
use crate::tests::run::{Fails, NO_FAILS, READ_FAILS, Run, SECOND_READ_FAILS, WRITE_FAILS, ends};
use std::alloc::Global;
use tracker_top::Status;

/// An input, the calls that fail, the status and its line, where nothing is printed.
pub type Stopped = (&'static str, Fails<'static>, Status, &'static str);

const CUT: &str = "cut 1";

// The first telling of a status fails.
const TELLING_FAILS: Fails = Fails {
    tellings: &[1],
    ..NO_FAILS
};

// Faults; where the line before them is refused, that is told.
const CUT_STOPPED: [Stopped; 5] = [
    ("", READ_FAILS, Status::ReadFault, "read fault\n"),
    (
        "1 0\n2",
        SECOND_READ_FAILS,
        Status::ReadFault,
        "read fault\n",
    ),
    (
        "1 0\nx",
        SECOND_READ_FAILS,
        Status::BadLine(2),
        "bad line: 2\n",
    ),
    ("", WRITE_FAILS, Status::WriteFault, "write fault\n"),
    ("x\n", TELLING_FAILS, Status::BadLine(1), ""),
];

// Commands, and what stops them.
const STOPPED: [(&str, &[Stopped]); 2] = [(CUT, &CUT_STOPPED), (PATH, &PATH_STOPPED)];

#[test]
fn the_outside_of_cut_and_path_fails(rt: HostRuntime) {
    for (words, rows) in &STOPPED {
        for (input, fails, status, err) in *rows {
            assert!(rt;
                stops(rt.alloc(), words, input, fails, *status, err),
                "{words} on {input}"
            );
        }
    }
}

/// Whether the words on the input end so, and print nothing.
pub fn stops(
    alloc: Global,
    words: &str,
    input: &str,
    fails: &Fails,
    status: Status,
    err: &str,
) -> bool {
    let run = Run {
        words,
        input: input.as_bytes(),
        fails: *fails,
        status,
        out: b"",
        err,
    };
    ends(alloc, &run)
}

// Words that are no command; the first penalty has a zero too many, the second is above all penalties.
const NO_COMMANDS: [&str; 11] = [
    "",
    "cut 05",
    "cut 5 --least 65",
    "cut 5 --least 0",
    "cut 1000000000000000000000000000000000001",
    "apply --store=",
    "trial 7 8",
    "cut 5 --absolute=true",
    "path 9 5",
    "path 0",
    "path 0 1000000000000000000000000000000000001",
];

#[test]
fn words_are_refused_where_telling_fails(rt: HostRuntime) {
    for words in &NO_COMMANDS {
        assert!(rt; is_bad(rt.alloc(), words), "{words}");
    }
}

fn is_bad(alloc: Global, words: &str) -> bool {
    let run = Run {
        words,
        input: b"x",
        fails: TELLING_FAILS,
        status: Status::BadWords,
        out: b"",
        err: "",
    };
    ends(alloc, &run)
}
