//! `hunt`: a test that can't be run, what was asked of which runner, and each call of its objects failing in turn.
ghost use Rattle.std.specs.Prelude.{◌≡◌, ◌≤◌, [], All, length};
ghost use Rattle.track_outside.specs.Asked.{Bench};

use crate::tests::run::{eight, texts_of};
use std::alloc::Global;
use std::sync::Wait;
use std::thread::Threads;
use track_outside::{MemFiles, MemRunner, MemSink, MemSource};
use tracker_top::{Status, asks_hunt, hunt};

/// A hunt: its words and its input, the statuses of commits whose names are `c` and a number, where other commits have none,
/// the calls that fail, and how it ends: at this status, with this output and this line.
#[derive(Clone, Copy)]
struct Hunted<'a> {
    words: &'a [&'a str],
    input: &'a [u8],
    answers: &'a [(u64, u8)],
    reads: &'a [u64],
    writes: &'a [u64],
    status: Status,
    out: &'a str,
    err: &'a str,
}

/// A commit that a runner was asked, and its answer.
type Ask<'a> = (&'a str, Option<u8>);

const WORDS: &[&str] = &["hunt", "3", "--test", "t"];

const NINE: &[u8] = b"c0\nc1\nc2\nc3\nc4\nc5\nc6\nc7\nc8\n";

const HUNT: Hunted = Hunted {
    words: WORDS,
    input: NINE,
    answers: &[(2, 0), (4, 0), (6, 125), (5, 1), (7, 1)],
    reads: &[],
    writes: &[],
    status: Status::Done,
    out: "found c4 c5 skipped 0 rounds 2\n",
    err: "",
};

// A commit whose test can't be run.
#[test]
fn a_hunt_is_faulted(rt: HostRuntime) {
    let run = Hunted {
        answers: &[(2, 0), (6, 125)],
        out: "faulted c4 rounds 1\n",
        ..HUNT
    };
    assert!(rt; ends(&rt, rt.alloc(), &run));
}

// The worked hunt with each read failing in turn, and each write, until a run meets no failure.
#[test]
fn each_call_of_a_hunt_fails_once(rt: HostRuntime) {
    assert!(rt; each_fails(&rt, rt.alloc(), true));
    assert!(rt; each_fails(&rt, rt.alloc(), false));
}

fn each_fails<R: Threads + Wait + Sync>(rt: &R, alloc: Global, is_read: bool) -> bool {
    for k in 1..=100u64 {
        let calls = [k];
        let whole = failing(&calls, is_read, HUNT.status, HUNT.out, HUNT.err);
        if ends(rt, alloc, &whole) {
            return k > 1;
        }
        let stopped = if is_read {
            failing(&calls, true, Status::ReadFault, "", "read fault\n")
        } else {
            failing(&calls, false, Status::WriteFault, "", "write fault\n")
        };
        if !ends(rt, alloc, &stopped) {
            return false;
        }
    }
    false
}

fn failing<'a>(
    calls: &'a [u64],
    is_read: bool,
    status: Status,
    out: &'a str,
    err: &'a str,
) -> Hunted<'a> {
    let run = Hunted {
        status,
        out,
        err,
        ..HUNT
    };
    if is_read {
        Hunted {
            reads: calls,
            ..run
        }
    } else {
        Hunted {
            writes: calls,
            ..run
        }
    }
}

// Each runner is asked the place of a round that has its number.
#[test]
fn each_runner_is_asked_its_places(rt: HostRuntime) {
    assert!(rt; are_asked(&rt, rt.alloc()));
}

fn are_asked<R: Threads + Wait + Sync>(rt: &R, alloc: Global) -> bool {
    match eight(alloc, HUNT.answers, &[]) {
        Ok(mut runners) => {
            ends_with(rt, alloc, &HUNT, &mut runners)
                && is_asked(runners.first(), &[("c2", Some(0)), ("c5", Some(1))])
                && is_asked(runners.get(1), &[("c4", Some(0)), ("c7", Some(1))])
                && is_asked(runners.get(2), &[("c6", Some(125))])
                && is_asked(runners.get(3), &[])
        }
        Err(_) => false,
    }
}

// Whether the runner was asked just this, of the test `t`.
fn is_asked(runner: Option<&MemRunner>, asks: &[Ask<'_>]) -> bool {
    let Some(runner) = runner else {
        return false;
    };
    for (i, (commit, status)) in asks.iter().enumerate() {
        if runner.asked(i) != Some(("t", *commit, *status)) {
            return false;
        }
    }
    runner.asked(asks.len()).is_none()
}

// Whether the hunt ends so, over eight new runners.
fn ends<R: Threads + Wait + Sync>(rt: &R, alloc: Global, run: &Hunted<'_>) -> bool {
    match eight(alloc, run.answers, &[]) {
        Ok(mut runners) => ends_with(rt, alloc, run, &mut runners),
        Err(_) => false,
    }
}

// The same with these.
fn ends_with<R: Threads + Wait + Sync>(
    rt: &R,
    alloc: Global,
    run: &Hunted<'_>,
    runners: &mut Vec<MemRunner>,
) -> bool
    requires eight { 8 ≤ length runners.old.items }
    requires unasked { All (λ (r : Bench). r.asks ≡ []) runners.old.items }
{
    match objects_of(alloc, run) {
        Some(mut objects) => {
            status_of(rt, alloc, &mut objects, runners) == Some(run.status)
                && objects.out.bytes() == run.out.as_bytes()
                && objects.err.bytes() == run.err.as_bytes()
        }
        None => false,
    }
}

// The words of a hunt, its input, its output, and where its line goes.
#[derive(Drop)]
struct Objects {
    texts: Vec<String>,
    input: MemSource,
    out: MemSink,
    err: MemSink,
}

fn objects_of(alloc: Global, run: &Hunted<'_>) -> Option<Objects> {
    let texts = texts_of(alloc, run.words).ok()?;
    let input = MemSource::new(alloc, run.input, run.reads).ok()?;
    let out = MemSink::new(alloc, 1_000, run.writes).ok()?;
    let err = MemSink::new(alloc, 100, &[]).ok()?;
    Some(Objects {
        texts,
        input,
        out,
        err,
    })
}

// The status of a hunt on these objects; none where the first word isn't `hunt`.
fn status_of<R: Threads + Wait + Sync>(
    rt: &R,
    alloc: Global,
    objects: &mut Objects,
    runners: &mut Vec<MemRunner>,
) -> Option<Status>
    requires eight { 8 ≤ length runners.old.items }
    requires unasked { All (λ (r : Bench). r.asks ≡ []) runners.old.items }
{
    if !asks_hunt(&objects.texts) {
        return None;
    }
    let Objects {
        texts,
        input,
        out,
        err,
    } = objects;
    Some(hunt::<_, MemFiles, _>(rt, alloc, texts, input, out, err, runners))
}
