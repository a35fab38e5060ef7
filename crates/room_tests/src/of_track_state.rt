//! Series that several take, and their tables.
ghost use Rattle.std.specs.Prelude.{◌≡◌, IfSome};
ghost use Rattle.publication_index.specs.Standing.{table_for};
ghost use Rattle.machine_state.specs.Made.{IsMadeFrom};
ghost use Rattle.track_room.specs.{Claims.{IsOf, taken_with}, Rooms.{IsFirst, IsPassOf}, Taking.{IsTaken, OfSeen}};

use crate::made::{Kind, MEASURED, asked, is_told, room_of};
use history_model::{Author, publication_law};
use std::alloc::Global;
use std::sync::Wait;
use track_room::{Room, RoomPass, SeriesClaim};
use track_series::{Published, Redone, Snapshot, compute_apart};

const RUN: &str = "submit go m c r3 21";

const RUN_BODY: &str = "BenchmarkX 1 10 B/op\n";

const SEGMENTATION: &str = "segment m X B/op";

// A series that was taken.
type Taken = (SeriesClaim, Snapshot);

// Publishes what was made of what the pass has seen.
fn published<R: Wait>(
    rt: &R,
    room: &Room,
    pass: &mut RoomPass,
    claim: SeriesClaim,
    redone: Redone,
) -> Option<Published>
    requires room { IsPassOf room.now pass.old }
    requires claimed { IsOf claim.key redone.done }
    requires made { OfSeen claim.machine pass.old (λ h. IsMadeFrom h redone.done) }
    requires tabled { redone.table ≡ table_for redone.done }
    ensures { IsPassOf room.now pass.new }
{
    match room.publish(rt, pass, Author::Recompute(1), claim, redone) {
        Ok(told) => Some(told),
        Err(_) => None,
    }
}

// Computes a series that the pass took, and publishes it.
fn made_of<R: Wait>(
    rt: &R,
    alloc: Global,
    room: &Room,
    pass: &mut RoomPass,
    claim: SeriesClaim,
    snapshot: Snapshot,
) -> Option<Published>
    requires room { IsPassOf room.now pass.old }
    requires taken { OfSeen claim.machine pass.old
        (λ h. IsTaken h (record { key = claim.key; snapshot = snapshot })) }
    ensures { IsPassOf room.now pass.new }
{
    publication_law();
    match compute_apart(alloc, snapshot) {
        Ok(redone) => published(rt, room, pass, claim, redone),
        Err(_) => {
            room.release(rt, pass, claim);
            None
        }
    }
}

fn hand_in<R: Wait>(
    rt: &R,
    alloc: Global,
    room: &Room,
    pass: &mut RoomPass,
    found: Option<Taken>,
) -> Option<Published>
    requires room { IsPassOf room.now pass.old }
    requires known { IfSome found
        (λ t. OfSeen t.0.machine pass.old (λ h. IsTaken h (taken_with t))) }
    ensures { IsPassOf room.now pass.new }
{
    match found {
        Some((claim, snapshot)) => made_of(rt, alloc, room, pass, claim, snapshot),
        None => None,
    }
}

fn take<R: Wait>(rt: &R, alloc: Global, room: &Room, pass: &mut RoomPass) -> Option<Taken>
    requires { IsPassOf room.now pass.old }
    ensures room { IsPassOf room.now pass.new }
    ensures known { IfSome result
        (λ t. OfSeen t.0.machine pass.new (λ h. IsTaken h (taken_with t))) }
{
    match room.take_series(rt, alloc, pass) {
        Ok(found) => found,
        Err(_) => None,
    }
}

// Whether there is no series to take; one that there is is given back.
fn takes_none<R: Wait>(rt: &R, alloc: Global, room: &Room, pass: &mut RoomPass) -> bool
    requires { IsPassOf room.now pass.old }
    ensures { IsPassOf room.now pass.new }
{
    match room.take_series(rt, alloc, pass) {
        Ok(None) => true,
        Ok(Some((claim, _))) => {
            room.release(rt, pass, claim);
            false
        }
        Err(_) => false,
    }
}

// Whether a series was taken at this version, from this base, with its table or without.
fn is_of(found: &Option<Taken>, version: u64, base: u64, tabled: bool) -> bool {
    match found {
        Some((_, snapshot)) => {
            snapshot.version == version
                && snapshot.base == base
                && snapshot.table.is_some() == tabled
        }
        None => false,
    }
}

// A series is taken at version 8, and nobody else is given it; a script has a later version published, and what was
// taken comes too late, and changes nothing.
fn is_late<R: Wait>(
    rt: &R,
    alloc: Global,
    room: &Room,
    script: &mut RoomPass,
    worker: &mut RoomPass,
) -> bool
    requires script { IsPassOf room.now script.old }
    requires worker { IsPassOf room.now worker.old }
{
    let found = take(rt, alloc, room, worker);
    let taken = is_of(&found, 8, 0, false);
    let alone = takes_none(rt, alloc, room, script);
    let run = asked(rt, alloc, room, script, 1, RUN, RUN_BODY);
    let later = asked(rt, alloc, room, script, 1, SEGMENTATION, "");
    let told = hand_in(rt, alloc, room, worker, found);
    let again = asked(rt, alloc, room, script, 1, RUN, RUN_BODY);
    let over = takes_none(rt, alloc, room, script);
    taken
        && alone
        && run == is_told(9, Kind::Accepted)
        && later == is_told(10, Kind::Segmented(9, 0))
        && told == Some(Published::Stale(9))
        && again == is_told(10, Kind::There)
        && over
}

// The table of a publication goes with the series that is taken once it is stale, and isn't there for a script's
// segmentation behind that.
fn has_the_table<R: Wait>(
    rt: &R,
    alloc: Global,
    room: &Room,
    script: &mut RoomPass,
    worker: &mut RoomPass,
) -> bool
    requires script { IsPassOf room.now script.old }
    requires worker { IsPassOf room.now worker.old }
{
    let first = asked(rt, alloc, room, script, 1, SEGMENTATION, "");
    let run = asked(rt, alloc, room, script, 1, RUN, RUN_BODY);
    let found = take(rt, alloc, room, worker);
    let with_table = is_of(&found, 10, 8, true);
    let without = asked(rt, alloc, room, script, 1, SEGMENTATION, "");
    let told = hand_in(rt, alloc, room, worker, found);
    first == is_told(9, Kind::Segmented(8, 0))
        && run == is_told(10, Kind::Accepted)
        && with_table
        && without == is_told(11, Kind::Segmented(10, 0))
        && told == Some(Published::Ok(12))
}

fn comes_too_late<R: Wait>(rt: &R, alloc: Global, room: &Room, script: &mut RoomPass) -> bool
    requires { IsPassOf room.now script.old × IsFirst script.old }
{
    match room.split(alloc, script) {
        Ok(mut worker) => is_late(rt, alloc, room, script, &mut worker),
        Err(_) => false,
    }
}

fn is_handed_over<R: Wait>(rt: &R, alloc: Global, room: &Room, script: &mut RoomPass) -> bool
    requires { IsPassOf room.now script.old × IsFirst script.old }
{
    match room.split(alloc, script) {
        Ok(mut worker) => has_the_table(rt, alloc, room, script, &mut worker),
        Err(_) => false,
    }
}

fn comes_too_late_at_a_room<R: Wait>(rt: &R, alloc: Global) -> bool {
    match room_of(alloc, MEASURED) {
        Some((room, mut script)) => comes_too_late(rt, alloc, &room, &mut script),
        None => false,
    }
}

fn is_handed_over_at_a_room<R: Wait>(rt: &R, alloc: Global) -> bool {
    match room_of(alloc, MEASURED) {
        Some((room, mut script)) => is_handed_over(rt, alloc, &room, &mut script),
        None => false,
    }
}

#[test]
fn what_was_taken_comes_too_late(rt: HostRuntime) {
    assert!(rt; comes_too_late_at_a_room(&rt, rt.alloc()));
}

#[test]
fn a_table_goes_with_the_first_taken(rt: HostRuntime) {
    assert!(rt; is_handed_over_at_a_room(&rt, rt.alloc()));
}
