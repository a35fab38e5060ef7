//! Workers alone at a room, once the scripts have ended, and what is left without one.
ghost use Rattle.track_room.specs.Rooms.{IsPassOf};

use crate::made::{BISECTED, MEASURED, journals_end, leaves, room_of, state_of};
use bisect_workers::{bisect, bisect_last};
use recompute_workers::{recompute, recompute_last};
use std::alloc::Global;
use std::sync::Wait;
use track_outside::{MemRunner, OpenGate, Runner};
use track_room::{Ended, Room, RoomPass};
use track_state::TrackState;

fn ended() -> Ended {
    let ended = Ended::new();
    ended.set();
    ended
}

fn recomputes_at<R: Wait>(rt: &R, alloc: Global, room: &Room, pass: &mut RoomPass) -> bool
    requires { IsPassOf room.now pass.old }
    ensures { IsPassOf room.now pass.new }
{
    recompute(rt, alloc, room, pass, 1, &ended(), &OpenGate).is_ok()
}

// A worker publishes the series that is stale.
fn recomputes<R: Wait>(rt: &R, alloc: Global) -> bool {
    match room_of(alloc, MEASURED) {
        Some((room, mut pass)) => {
            let done = recomputes_at(rt, alloc, &room, &mut pass);
            leaves(alloc, room, pass, PUBLISHED) && done
        }
        None => false,
    }
}

const PUBLISHED: &str = "\n9 r1 publish X B/op 8 0 50 1 2\n";

fn bisects_at<R: Wait, A: Runner>(
    rt: &R,
    alloc: Global,
    room: &Room,
    pass: &mut RoomPass,
    runner: &mut A,
) -> bool
    requires { IsPassOf room.now pass.old }
    ensures { IsPassOf room.now pass.new }
{
    bisect(rt, alloc, room, pass, 1, "t", runner, &ended(), &OpenGate).is_ok()
}

fn bisects_by<R: Wait, A: Runner>(rt: &R, alloc: Global, runner: &mut A, end: &str) -> bool {
    match room_of(alloc, BISECTED) {
        Some((room, mut pass)) => {
            let done = bisects_at(rt, alloc, &room, &mut pass, runner);
            leaves(alloc, room, pass, end) && done
        }
        None => false,
    }
}

// Whether a runner was asked this once.
fn was_asked(runner: &MemRunner, status: Option<u8>) -> bool {
    runner.asked(0) == Some(("t", "c1", status)) && runner.asked(1) == None
}

// A worker asks the open job's question, of a runner whose calls with these numbers fail.
fn bisects<R: Wait>(rt: &R, alloc: Global, fails: &[u64], status: Option<u8>, end: &str) -> bool {
    match MemRunner::new(alloc, &[(1, 1)], fails) {
        Ok(mut runner) => bisects_by(rt, alloc, &mut runner, end) && was_asked(&runner, status),
        Err(_) => false,
    }
}

const ANSWERED: &str = "\n5 b1 answer 1 1 1\n";

const GIVEN_UP: &str = "\n5 b1 giveup 1 1\n";

// Main publishes what is stale.
fn recomputes_last(alloc: Global, mut state: TrackState) -> bool {
    let done = recompute_last(alloc, &mut state).is_ok();
    journals_end(alloc, &[state.into_track()], PUBLISHED) && done
}

// Main asks what is open.
fn bisects_last<A: Runner>(alloc: Global, mut state: TrackState, runner: &mut A) -> bool {
    let done = bisect_last(alloc, &mut state, "t", runner).is_ok();
    journals_end(alloc, &[state.into_track()], ANSWERED) && done
}

fn publishes_the_rest(alloc: Global) -> bool {
    match state_of(alloc, MEASURED) {
        Some(state) => recomputes_last(alloc, state),
        None => false,
    }
}

fn asks_by<A: Runner>(alloc: Global, runner: &mut A) -> bool {
    match state_of(alloc, BISECTED) {
        Some(state) => bisects_last(alloc, state, runner),
        None => false,
    }
}

fn asks_the_rest(alloc: Global) -> bool {
    match MemRunner::new(alloc, &[(1, 1)], &[]) {
        Ok(mut runner) => asks_by(alloc, &mut runner) && was_asked(&runner, Some(1)),
        Err(_) => false,
    }
}

#[test]
fn a_worker_publishes_alone(rt: HostRuntime) {
    assert!(rt; recomputes(&rt, rt.alloc()));
}

#[test]
fn a_worker_bisects_alone(rt: HostRuntime) {
    assert!(rt; bisects(&rt, rt.alloc(), &[], Some(1), ANSWERED));
}

#[test]
fn a_failed_ask_gives_up(rt: HostRuntime) {
    assert!(rt; bisects(&rt, rt.alloc(), &[1], None, GIVEN_UP));
}

#[test]
fn main_does_the_rest(rt: HostRuntime) {
    assert!(rt; publishes_the_rest(rt.alloc()));
    assert!(rt; asks_the_rest(rt.alloc()));
}
