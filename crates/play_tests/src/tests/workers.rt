//! Workers beside a script, under a gate that holds both so that they must work at once.
use crate::tests::run::{Objects, PLAIN, eight, status_with};
use std::alloc::Global;
use std::sync::Wait;
use std::sync::atomic::{AtomicU64, Ordering};
use std::thread::{Threads, yield_now};
use track_outside::{Gate, MemKeeper, MemRunner, Place};
use tracker_top::Status;

/// A gate that holds the script at one of its replies until the worker has taken something, the worker there until the script
/// has come to its next reply, and the script there until the worker has an answer, where it waits for one.
#[derive(Drop)]
struct Holds {
    at: u64,
    for_answer: bool,
    replied: AtomicU64,
    taken: AtomicU64,
    ready: AtomicU64,
    failed: AtomicU64,
}

impl Holds {
    fn new(at: u64, for_answer: bool) -> Holds {
        Holds {
            at,
            for_answer,
            replied: AtomicU64::new(0),
            taken: AtomicU64::new(0),
            ready: AtomicU64::new(0),
            failed: AtomicU64::new(0),
        }
    }

    // Waits until a word has come so far; where it doesn't, the test fails.
    fn hold(&self, word: &AtomicU64, until: u64) {
        for turn in 0..1_000_000_000u64 {
            if word.load(Ordering::SeqCst) >= until {
                return;
            }
            if turn % 64 == 63 {
                yield_now();
            }
        }
        self.failed.store(1, Ordering::SeqCst);
    }

    fn replied(&self) {
        let before = self.replied.fetch_add(1, Ordering::SeqCst);
        if before.wrapping_add(1) == self.at {
            self.hold(&self.taken, 1);
        }
        if before == self.at && self.for_answer {
            self.hold(&self.ready, 1);
        }
    }

    fn took(&self) {
        self.taken.store(1, Ordering::SeqCst);
        self.hold(&self.replied, self.at.wrapping_add(1));
    }

    fn was_kept(&self) -> bool {
        self.failed.load(Ordering::SeqCst) == 0
    }
}

impl Gate for Holds {
    fn pass(&self, place: Place) {
        match place {
            Place::Replied(_) => self.replied(),
            Place::SeriesTaken(_) => self.took(),
            Place::QuestionTaken(_) => self.took(),
            Place::AnswerReady(_) => self.ready.store(1, Ordering::SeqCst),
            Place::SeriesDone(_) => {}
        }
    }
}

// What a run left: its journals and the script's transcript, and its runners.
#[derive(Drop)]
struct Left {
    objects: Objects,
    runners: Vec<MemRunner>,
}

// Runs the words on one script, whose runners answer 1 for `c1` but at the asks with these numbers, which fail; what it left,
// where it ended well and under a gate that was kept.
fn run<R: Threads + Wait + Sync>(
    rt: &R,
    alloc: Global,
    words: &[&str],
    script: &str,
    fails: &[u64],
    gate: &Holds,
) -> Option<Left> {
    let mut objects = Objects::of(alloc, &PLAIN)?;
    objects.files.put("s1", script.as_bytes()).ok()?;
    let mut keeper = MemKeeper::new(alloc, &[]).ok()?;
    let mut runners = eight(alloc, &[(1, 1)], fails).ok()?;
    let status = status_with(
        rt,
        alloc,
        words,
        &mut objects,
        &mut keeper,
        &mut runners,
        gate,
    );
    if status == Some(Status::Done) && gate.was_kept() {
        Some(Left { objects, runners })
    } else {
        None
    }
}

// Whether a line of a text begins so.
fn has_line(text: &[u8], start: &[u8]) -> bool {
    for line in text.split(|b| *b == b'\n') {
        if line.starts_with(start) {
            return true;
        }
    }
    false
}

const RUNS: &str =
    "commit m 10 a\nsubmit go m a r1 20\nBenchmarkX 1 1 B/op\nsubmit go m a r2 20\nBenchmarkX 1 2 B/op\n";

// The worker takes a series while the script goes on, publishes it as it was then, and then as it is.
fn recomputes<R: Threads + Wait + Sync>(rt: &R, alloc: Global) -> Option<bool> {
    let gate = Holds::new(2, false);
    let words = ["play", "--machines", "m", "--recompute", "1", "s1"];
    let left = run(rt, alloc, &words, RUNS, &[], &gate)?;
    Some(
        has_line(left.objects.out.bytes(), b"4 r1 publish X B/op 2 ")
            && has_line(left.objects.out.bytes(), b"5 r1 publish X B/op 4 "),
    )
}

const BISECTION: &str = "commit m 0 c0\ncommit m 1 c1\ncommit m 2 c2\nbisect m c0 c2\n";

const BISECTION_AND_RUNS: &str =
    "commit m 0 c0\ncommit m 1 c1\ncommit m 2 c2\nbisect m c0 c2\nruns m\n";

const BISECTING: &[&str] = &[
    "play",
    "--machines",
    "m",
    "--bisect",
    "1",
    "--test",
    "t",
    "s1",
];

// The worker asks the job's question once, and says what was found; the transcript ends with these replies.
fn bisects<R: Threads + Wait + Sync>(
    rt: &R,
    alloc: Global,
    script: &str,
    gate: &Holds,
    last: &[u8],
) -> Option<bool> {
    let left = run(rt, alloc, BISECTING, script, &[], gate)?;
    let first = left.runners.first()?;
    let second = left.runners.get(1)?;
    Some(
        left.objects
            .out
            .bytes()
            .ends_with(b"\n4 s1 begin 0 2\n5 b1 answer 1 1 1\n")
            && left.objects.files.get("s1.out")?.ends_with(last)
            && first.asked(0) == Some(("t", "c1", Some(1)))
            && first.asked(1) == None
            && second.asked(0) == None,
    )
}

// A question whose ask fails is given up, and that is the last entry.
fn gives_up<R: Threads + Wait + Sync>(rt: &R, alloc: Global) -> Option<bool> {
    let gate = Holds::new(u64::MAX, false);
    let left = run(rt, alloc, BISECTING, BISECTION, &[1], &gate)?;
    let first = left.runners.first()?;
    Some(
        left.objects
            .out
            .bytes()
            .ends_with(b"\n4 s1 begin 0 2\n5 b1 giveup 1 1\n")
            && first.asked(0) == Some(("t", "c1", None)),
    )
}

#[test]
fn a_failed_ask_gives_up(rt: HostRuntime) {
    assert!(rt; gives_up(&rt, rt.alloc()) == Some(true));
}

#[test]
fn a_worker_publishes_beside_a_script(rt: HostRuntime) {
    assert!(rt; recomputes(&rt, rt.alloc()) == Some(true));
}

#[test]
fn a_worker_bisects_beside_a_script(rt: HostRuntime) {
    let gate = Holds::new(4, true);
    let last = b"\n@4 job 1 range 2 questions 0 asks c1\n@4 runs lines 0\n";
    assert!(rt; bisects(&rt, rt.alloc(), BISECTION_AND_RUNS, &gate, last) == Some(true));
}

#[test]
fn a_job_is_bisected_in_a_run(rt: HostRuntime) {
    let gate = Holds::new(u64::MAX, false);
    let last = b"\n@4 job 1 range 2 questions 0 asks c1\n";
    assert!(rt; bisects(&rt, rt.alloc(), BISECTION, &gate, last) == Some(true));
}
