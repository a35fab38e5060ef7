//! What enters, leaves and closes, and with which numbers.
ghost use Rattle.std.specs.Prelude.{◌≡◌, ◌+◌, []};
ghost use Rattle.history_lock.specs.Passes.{mark, joined, label, IsPassOf, IsOutside};

use history_lock::{Historied, HistoryLock, Pass};
use std::alloc::{AllocError, Global};
use std::sync::atomic::{AtomicU64, Ordering};
use std::sync::{Arc, Wait};
use std::test::Fail;
use std::thread::{Threads, join};

/// A list of numbers, which is its own history.
#[derive(Drop)]
struct Numbers {
    items: Vec<u64>,
}

impl Historied for Numbers {
    type Entry = u64;

    type Label = ();

    ghost history = { λ s. s.items.items };

    ghost label = { λ _. tt };

    fn len(&self) -> u64 {
        self.items.len() as u64
    }
}

fn no_numbers(alloc: Global) -> Numbers
    ensures { result.items.items ≡ [] }
{
    Numbers {
        items: Vec::new(alloc),
    }
}

// Enters, adds the number if there is memory for it, and leaves.
fn add<R: Wait>(rt: &R, lock: &HistoryLock<Numbers>, pass: &mut Pass<Numbers>, number: u64) -> bool
    requires { IsPassOf lock.now pass.old × IsOutside pass.old }
    ensures { IsPassOf lock.now pass.new × IsOutside pass.new × (mark pass.new ≡ mark pass.old) }
{
    let mut state = lock.enter(rt, pass);
    let added = state.items.push(number).is_ok();
    lock.leave(pass, state);
    added
}

#[test]
fn two_passes_see_one_history(rt: HostRuntime) -> Result<(), Fail> {
    let Ok((lock, mut first)) = HistoryLock::new(rt.alloc(), no_numbers(rt.alloc())) else {
        panic!(rt; "no memory")
    };
    assert!(rt; add(&rt, &lock, &mut first, 5));
    let Ok(mut second) = lock.split(rt.alloc(), &mut first) else {
        panic!(rt; "no memory")
    };
    let mut state = lock.enter(&rt, &mut second);
    assert!(rt; state.items.as_slice() == [5].as_slice());
    let added = state.items.push(7).is_ok();
    lock.leave(&mut second, state);
    assert!(rt; added);
    lock.join(&mut first, second);
    let state = lock.enter(&rt, &mut first);
    assert!(rt; state.items.as_slice() == [5, 7].as_slice());
    lock.leave(&mut first, state);
    let Ok(state) = lock.close(first) else {
        panic!(rt; "in use")
    };
    assert!(rt; state.items.as_slice() == [5, 7].as_slice());
    Ok(())
}

#[test]
fn a_pass_that_is_dropped_inside_keeps_the_turn(rt: HostRuntime) -> Result<(), Fail> {
    let Ok((lock, mut first)) = HistoryLock::new(rt.alloc(), no_numbers(rt.alloc())) else {
        panic!(rt; "no memory")
    };
    let Ok(mut second) = lock.split(rt.alloc(), &mut first) else {
        panic!(rt; "no memory")
    };
    drop(lock.enter(&rt, &mut second));
    drop(second);
    let Err(in_use) = lock.close(first) else {
        panic!(rt; "closed")
    };
    assert!(rt; in_use.ticket == 1 && in_use.serving == 0);
    Ok(())
}

#[test]
fn the_counts_of_a_lock_in_use_are_its_turns(rt: HostRuntime) -> Result<(), Fail> {
    let Ok((lock, mut first)) = HistoryLock::new(rt.alloc(), no_numbers(rt.alloc())) else {
        panic!(rt; "no memory")
    };
    assert!(rt; add(&rt, &lock, &mut first, 5));
    assert!(rt; add(&rt, &lock, &mut first, 7));
    drop(lock.enter(&rt, &mut first));
    let Err(in_use) = lock.close(first) else {
        panic!(rt; "closed")
    };
    assert!(rt; in_use.ticket == 3 && in_use.serving == 2);
    Ok(())
}

// Adds 1,000 numbers from `base` on, and says whether there was memory for all.
fn add_many<R: Wait>(
    rt: &R,
    lock: &HistoryLock<Numbers>,
    mut pass: Pass<Numbers>,
    base: u64,
) -> (Pass<Numbers>, bool)
    requires { IsPassOf lock.now pass × IsOutside pass }
    ensures { IsPassOf lock.now result.0 × IsOutside result.0 × (mark result.0 ≡ mark pass) }
{
    let mut all = true;
    for i in 0..1000 {
        all = add(rt, lock, &mut pass, base.wrapping_add(i)) && all;
    }
    (pass, all)
}

fn add_side_by_side<R: Threads + Wait + Sync>(
    rt: &R,
    lock: &HistoryLock<Numbers>,
    first: Pass<Numbers>,
    second: Pass<Numbers>,
) -> (Pass<Numbers>, Pass<Numbers>, bool)
    requires first { IsPassOf lock.now first × IsOutside first }
    requires second { IsPassOf lock.now second × IsOutside second }
    ensures first { IsPassOf lock.now result.0 × IsOutside result.0 × (mark result.0 ≡ mark first) }
    ensures second { IsPassOf lock.now result.1 × IsOutside result.1
        × (mark result.1 ≡ mark second) }
{
    let (one, two) = join(
        rt,
        || add_many(rt, lock, first, 0),
        || add_many(rt, lock, second, 5000),
    );
    (one.0, two.0, one.1 && two.1)
}

#[test]
fn two_threads_add_to_one_history(rt: HostRuntime) -> Result<(), Fail> {
    let Ok((lock, mut first)) = HistoryLock::new(rt.alloc(), no_numbers(rt.alloc())) else {
        panic!(rt; "no memory")
    };
    let Ok(second) = lock.split(rt.alloc(), &mut first) else {
        panic!(rt; "no memory")
    };
    let (mut first, second, all) = add_side_by_side(&rt, &lock, first, second);
    assert!(rt; all);
    lock.join(&mut first, second);
    let Ok(state) = lock.close(first) else {
        panic!(rt; "in use")
    };
    let (mut low, mut high) = (0u64, 5000u64);
    for x in state.items.as_slice() {
        if *x == low {
            low = low.wrapping_add(1);
        } else {
            assert!(rt; *x == high);
            high = high.wrapping_add(1);
        }
    }
    assert!(rt; low == 1000 && high == 6000);
    Ok(())
}

// A lock whose split pass was joined gives its state back.
fn lend_and_end(alloc: Global, state: Numbers) -> Option<Numbers> {
    let Ok((lock, mut first)) = HistoryLock::new(alloc, state) else {
        return None;
    };
    let Ok(second) = lock.split(alloc, &mut first) else {
        return None;
    };
    lock.join(&mut first, second);
    let Ok(state) = lock.close(first) else {
        unreachable!()
    };
    Some(state)
}

#[test]
fn a_whole_pass_ends_the_lock(rt: HostRuntime) -> Result<(), Fail> {
    assert!(rt; lend_and_end(rt.alloc(), no_numbers(rt.alloc())).is_some());
    Ok(())
}

/// A history of no entries that counts how often it is dropped.
struct Counted {
    drops: Arc<AtomicU64, Global>,
}

impl Drop for Counted {
    fn drop(self) {
        self.drops.fetch_add(1, Ordering::SeqCst);
        let Counted { drops } = self;
        drop(drops);
    }
}

impl Historied for Counted {
    type Entry = u64;

    type Label = ();

    ghost history = { λ _. [] };

    ghost label = { λ _. tt };

    fn len(&self) -> u64 {
        0
    }
}

// Refuses to close a lock that a pass is inside of; `new` may find no memory. The state is dropped on each way.
fn refuse(rt: &impl Wait, alloc: Global, state: Counted) -> bool {
    let Ok((lock, mut first)) = HistoryLock::new(alloc, state) else {
        return true;
    };
    let state = lock.enter(rt, &mut first);
    drop(state);
    lock.close(first).is_err()
}

#[test]
fn a_refused_state_is_dropped_once(rt: HostRuntime) -> Result<(), Fail> {
    let drops = Arc::new(rt.alloc(), AtomicU64::new(0))?;
    let state = Counted {
        drops: Arc::try_clone(&drops)?,
    };
    assert!(rt; refuse(&rt, rt.alloc(), state));
    assert_eq!(rt; drops.load(Ordering::SeqCst), 1);
    Ok(())
}
