//! `apply`: faults of the outside, and a line that is too long for more to be read.
use crate::tests::run::{Fails, NO_FAILS, READ_FAILS, Run, SECOND_READ_FAILS, WRITE_FAILS, ends};
use std::alloc::{AllocError, Global};
use tracker_top::Status;

// Whether the script is answered so, and ends so.
fn stops(
    alloc: Global,
    script: &[u8],
    fails: Fails,
    status: Status,
    replies: &[u8],
    err: &str,
) -> bool {
    let run = Run {
        words: "apply",
        input: script,
        fails,
        status,
        out: replies,
        err,
    };
    ends(alloc, &run)
}

// A line of a byte too much is refused before more is read, which would fail.
#[test]
fn a_line_is_too_long_for_more(rt: HostRuntime) {
    assert!(rt; is_too_long(rt.alloc()));
}

fn is_too_long(alloc: Global) -> bool {
    match long_line(alloc) {
        Ok(script) => stops(
            alloc,
            &script,
            SECOND_READ_FAILS,
            Status::CutOff(0, 10),
            b"@0 machine m\n",
            "cut off: input at 10\n",
        ),
        Err(_) => false,
    }
}

// A request, and a comment of 4,097 bytes.
fn long_line(alloc: Global) -> Result<Vec<u8>, AllocError> {
    let mut script = Vec::from_slice(alloc, b"machine m\n#")?;
    for _ in 0..4_096 {
        script.push(b' ')?;
    }
    Ok(script)
}

// The second write fails.
const SECOND_WRITE_FAILS: Fails = Fails {
    writes: &[2],
    ..NO_FAILS
};

const FAULTS: [(Fails, Status, &str, &str); 4] = [
    (READ_FAILS, Status::ReadFault, "", "read fault\n"),
    (
        SECOND_READ_FAILS,
        Status::ReadFault,
        "@0 machine m\n@0 runs lines 0\n",
        "read fault\n",
    ),
    (WRITE_FAILS, Status::WriteFault, "", "write fault\n"),
    (
        SECOND_WRITE_FAILS,
        Status::WriteFault,
        "@0 machine m\n@0 runs lines 0\n",
        "write fault\n",
    ),
];

// The first two replies are written together, before more is read, and the third at the end.
#[test]
fn the_outside_of_scripts_fails(rt: HostRuntime) {
    for (fails, status, replies, err) in &FAULTS {
        assert!(rt;
            stops(
                rt.alloc(),
                b"machine m\nruns m\nruns n",
                *fails,
                *status,
                replies.as_bytes(),
                err
            ),
            "{replies}"
        );
    }
}
