//! A hunt in which two programs of the system run at once.
use hunt_command::{HuntEnd, hunt_commits};
use std::test::Fail;
use track_outside::{Files, MemSink, MemSource, RealFiles, RealRunner, put_all};

// The test of each commit: each third one can't be built, and from the seventh on all are bad.
const TEST: &[u8] =
    b"number=${0#c}\n[ $((number % 3)) -ne 0 ] || exit 125\n[ \"$number\" -lt 7 ]\n";

const NAMES: [&str; 11] = [
    "c1", "c2", "c3", "c4", "c5", "c6", "c7", "c8", "c9", "c10", "c11",
];

#[test]
fn a_hunt_by_two_programs_at_once_passes_over_what_cant_be_built(
    rt: HostRuntime,
) -> Result<(), Fail> {
    let mut files = RealFiles::new(&rt);
    for name in NAMES {
        let Ok(mut output) = files.create_output(rt.alloc(), name) else {
            return Err(Fail::new("not created"));
        };
        assert_eq!(rt; put_all(&mut output, TEST), Ok(()));
        files.close_output(output);
    }
    let mut input = MemSource::new(
        rt.alloc(),
        b"c0\nc1\nc2\nc3\nc4\nc5\nc6\nc7\nc8\nc9\nc10\nc11\nc12\n",
        &[],
    )?;
    let mut out = MemSink::new(rt.alloc(), 100, &[])?;
    let mut runners = [RealRunner::new(&rt), RealRunner::new(&rt)];
    let end = hunt_commits(&rt, rt.alloc(), 2, "sh", &mut input, &mut out, &mut runners);
    assert_eq!(rt; end, HuntEnd::Done);
    assert_eq!(rt; out.bytes(), b"found c5 c7 skipped 1 rounds 3\n".as_slice());
    Ok(())
}
