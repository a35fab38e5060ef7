//! Jobs, helpers and workers at once.
ghost use Rattle.std.specs.Prelude.{⊤, ◌≡◌, true};

use side_by_side::{Job, Worker, run_with_workers};
use std::sync::Wait;
use std::sync::atomic::{AtomicBool, AtomicU64, Ordering};
use std::thread;

/// Waits for a while until a helper and a worker have begun.
#[derive(Drop)]
struct Script<'a> {
    begun: &'a AtomicU64,
    number: u64,
    met: bool,
}

impl<'a, R: Wait> Job<R> for Script<'a> {
    ghost can_run = { λ _. ⊤ };

    ghost comes_to = { λ old new. new.number ≡ old.number };

    fn run(&mut self, _rt: &R) {
        self.met = have_begun(self.begun);
    }
}

fn have_begun(begun: &AtomicU64) -> bool {
    for _ in 0..100_000_000u64 {
        if begun.load(Ordering::SeqCst) >= 2 {
            return true;
        }
        thread::yield_now();
    }
    false
}

/// Goes on until the flag is set.
#[derive(Drop)]
struct Helper<'a> {
    begun: &'a AtomicU64,
    ended: &'a AtomicBool,
    saw_end: bool,
}

impl<'a, R: Wait> Job<R> for Helper<'a> {
    ghost can_run = { λ _. ⊤ };

    ghost comes_to = { λ old new. new.saw_end ≡ true };

    fn run(&mut self, rt: &R) {
        self.begun.fetch_add(1, Ordering::SeqCst);
        for _ in rt.forever() {
            if self.ended.load(Ordering::SeqCst) {
                break;
            }
            thread::yield_now();
        }
        self.saw_end = true;
    }
}

impl<'a, R: Wait> Worker<R, u64> for Helper<'a> {
    ghost can_work = { λ _ _. ⊤ };

    ghost work_gives = { λ old tool new after. (new.saw_end ≡ true) × (after ≡ 7) };

    fn work(&mut self, rt: &R, tool: &mut u64) {
        self.run(rt);
        *tool = 7;
    }
}

#[test]
fn jobs_helpers_and_workers_run_beside_each_other(rt: HostRuntime) {
    let begun = AtomicU64::new(0);
    let ended = AtomicBool::new(false);
    let mut scripts = [
        Script {
            begun: &begun,
            number: 1,
            met: false,
        },
        Script {
            begun: &begun,
            number: 2,
            met: false,
        },
    ];
    let mut helpers = [Helper {
        begun: &begun,
        ended: &ended,
        saw_end: false,
    }];
    let mut workers = [Helper {
        begun: &begun,
        ended: &ended,
        saw_end: false,
    }];
    let mut tools = [0u64];
    run_with_workers(
        &rt,
        &|| ended.store(true, Ordering::SeqCst),
        &mut scripts,
        &mut helpers,
        &mut workers,
        &mut tools,
    );
    assert!(rt; scripts[0].met && scripts[1].met);
    assert!(rt; helpers[0].saw_end && workers[0].saw_end && tools[0] == 7);
}
