//! The worked script over a store, with each call of its input, its output and its store failing in turn.
use crate::tests::run::comes_over;
use crate::tests::stores::has_rows;
use std::alloc::Global;
use track_outside::{MemKeeper, MemSink, MemSource};
use tracker_top::Status;

const WORKED: &str =
    "machine m1\ncommit m1 10 a\ncommit m1 20 b\ncommit m1 30 c\ncommit m1 40 d\ntune m1 B/op 50\nsubmit go m1 a r1 20\nBenchmarkX 1 0 B/op\nsubmit go m1 b r2 20\nBenchmarkX 1 0 B/op\nsubmit go m1 d r4 21\nBenchmarkX 1 10 B/op\nsegment m1 X B/op\nsubmit go m1 c r3 21\nBenchmarkX 1 10 B/op\nsegment m1 X B/op\nchanges m1 X B/op\n";

const REPLIES: &str =
    "@0 machine m1\n@1 commit 10 a\n@2 commit 20 b\n@3 commit 30 c\n@4 commit 40 d\n@5 tuned B/op 50\n@6 accepted r1 samples 1 ignored 0\n@7 accepted r2 samples 1 ignored 0\n@8 accepted r4 samples 1 ignored 0\n@9 segmented version 8 base 0 points 3 cuts 1 redone 3 total 50\n@10 accepted r3 samples 1 ignored 0\n@11 segmented version 10 base 8 points 4 cuts 1 redone 2 total 50\n@11 changes version 10 lines 1\nb c 0 10 regression\n";

const ROWS: [&str; 11] = [
    "format 2",
    "machine m1",
    "entry m1 commit 10 a",
    "entry m1 commit 20 b",
    "entry m1 commit 30 c",
    "entry m1 commit 40 d",
    "entry m1 tune B/op 50 1",
    "entry m1 accept r1 10 1 X B/op 0",
    "entry m1 accept r2 20 1 X B/op 0",
    "entry m1 accept r4 40 1 X B/op 10",
    "entry m1 accept r3 30 1 X B/op 10",
];

// What the run meets a fault of.
#[derive(Clone, Copy)]
enum Object {
    Input,
    Output,
    Store,
}

#[test]
fn each_call_fails_once(rt: HostRuntime) {
    assert!(rt; each_fails(rt.alloc(), Object::Input));
    assert!(rt; each_fails(rt.alloc(), Object::Output));
    assert!(rt; each_fails(rt.alloc(), Object::Store));
}

// Whether the run ends as it must where the first call of the object fails, then where the second does, and so on until a run
// meets no failure.
fn each_fails(alloc: Global, object: Object) -> bool {
    for k in 1..=1_000u64 {
        match fails_at(alloc, object, k) {
            Some(true) => return k > 1,
            Some(false) => {}
            None => return false,
        }
    }
    false
}

// Whether the run met no failure where the k-th call of the object fails; none where it ended as it must not.
fn fails_at(alloc: Global, object: Object, k: u64) -> Option<bool> {
    match object {
        Object::Input => ends(alloc, &[k], &[], &[], Status::ReadFault),
        Object::Output => ends(alloc, &[], &[k], &[], Status::WriteFault),
        Object::Store => ends(alloc, &[], &[], &[k], Status::StoreFault),
    }
}

fn ends(
    alloc: Global,
    reads: &[u64],
    writes: &[u64],
    calls: &[u64],
    status: Status,
) -> Option<bool> {
    match MemKeeper::new(alloc, calls) {
        Ok(mut keeper) => ends_over(alloc, reads, writes, status, &mut keeper),
        Err(_) => None,
    }
}

fn ends_over(
    alloc: Global,
    reads: &[u64],
    writes: &[u64],
    status: Status,
    keeper: &mut MemKeeper,
) -> Option<bool> {
    match MemSource::new(alloc, WORKED.as_bytes(), reads) {
        Ok(mut source) => ends_on(alloc, &mut source, writes, status, keeper),
        Err(_) => None,
    }
}

fn ends_on(
    alloc: Global,
    source: &mut MemSource,
    writes: &[u64],
    status: Status,
    keeper: &mut MemKeeper,
) -> Option<bool> {
    match MemSink::new(alloc, 100_000, writes) {
        Ok(mut out) => {
            let told = comes_over(alloc, "apply --store t", source, &mut out, keeper);
            came_to(alloc, told, out.bytes(), status, keeper)
        }
        Err(_) => None,
    }
}

// At Done the output is whole and the rows are there; at the fault's status it is a first part, and there are none.
fn came_to(
    alloc: Global,
    told: Option<Status>,
    out: &[u8],
    status: Status,
    keeper: &mut MemKeeper,
) -> Option<bool> {
    if told == Some(Status::Done) {
        return if_so(
            true,
            out == REPLIES.as_bytes() && are_rows(alloc, keeper, &ROWS),
        );
    }
    if told == Some(status) {
        return if_so(
            false,
            REPLIES.as_bytes().starts_with(out) && are_rows(alloc, keeper, &[]),
        );
    }
    None
}

fn if_so(whole: bool, holds: bool) -> Option<bool> {
    if holds { Some(whole) } else { None }
}

// Whether these are the rows. The look at them may itself be the call that fails, and is then made again.
fn are_rows(alloc: Global, keeper: &mut MemKeeper, rows: &[&str]) -> bool {
    has_rows(alloc, keeper, rows) || has_rows(alloc, keeper, rows)
}
