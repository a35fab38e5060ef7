//! A worker that recomputes beside running scripts.
ghost use Rattle.std.specs.List.{AllZip};
ghost use Rattle.history_model.specs.declared.entries.Author.TheVariants as author;
ghost use Rattle.track_room.specs.{Rooms.IsPassOf, Taking.{IsTaken, OfSeen}};
ghost use Rattle.recompute_workers.specs.Works.{Works};

use crate::NoMemory;
use history_model::{Author, publication_law};
use std::alloc::Global;
use std::sync::Wait;
use track_outside::{Gate, Place};
use track_room::{AtGate, Ended, Pace, Room, RoomPass, SeriesClaim, Snapshot, compute_apart};

// Computes a series that was taken, and publishes it; gives it back where there is no memory.
fn finish<R: Wait>(
    rt: &R,
    alloc: Global,
    room: &Room,
    pass: &mut RoomPass,
    number: u8,
    claim: SeriesClaim,
    snapshot: Snapshot,
) -> Result<(), NoMemory>
    requires room { IsPassOf room.now pass.old }
    requires taken { OfSeen claim.machine pass.old
        (λ h. IsTaken h (record { key = claim.key; snapshot = snapshot })) }
    ensures room { IsPassOf room.now pass.new }
    ensures works { AllZip (Works (author.Recompute number)) pass.old pass.new }
{
    publication_law();
    let redone = match compute_apart(alloc, snapshot) {
        Ok(redone) => redone,
        Err(why) => {
            room.release(rt, pass, claim);
            return Err(why);
        }
    };
    let _ = room.publish(rt, pass, Author::Recompute(number), claim, redone)?;
    Ok(())
}

// Takes a series, computes and publishes it; tells whether there was one.
fn turn<R: Wait, P: Pace>(
    rt: &R,
    alloc: Global,
    room: &Room,
    pass: &mut RoomPass,
    number: u8,
    pace: &P,
) -> Result<bool, NoMemory>
    requires { IsPassOf room.now pass.old }
    ensures room { IsPassOf room.now pass.new }
    ensures works { AllZip (Works (author.Recompute number)) pass.old pass.new }
{
    let Some((claim, snapshot)) = room.take_series(rt, alloc, pass)? else {
        return Ok(false);
    };
    pace.taken();
    finish(rt, alloc, room, pass, number, claim, snapshot)?;
    pace.done();
    Ok(true)
}

/// As [`recompute_by`], with a gate that is passed when a series is taken, and when it is done.
pub fn recompute<R: Wait, G: Gate>(
    rt: &R,
    alloc: Global,
    room: &Room,
    pass: &mut RoomPass,
    number: u8,
    ended: &Ended,
    gate: &G,
) -> Result<(), NoMemory>
    requires { IsPassOf room.now pass.old }
    ensures room { IsPassOf room.now pass.new }
    ensures works { AllZip (Works (author.Recompute number)) pass.old pass.new }
{
    let pace = AtGate {
        gate,
        taken: Place::SeriesTaken(number),
        done: Place::SeriesDone(number),
    };
    recompute_by(rt, alloc, room, pass, number, ended, &pace)
}

/// Takes, computes and publishes series until none is claimable and the scripts have ended. Where there is no memory its
/// claim ends. May wait for other passes.
pub fn recompute_by<R: Wait, P: Pace>(
    rt: &R,
    alloc: Global,
    room: &Room,
    pass: &mut RoomPass,
    number: u8,
    ended: &Ended,
    pace: &P,
) -> Result<(), NoMemory>
    requires { IsPassOf room.now pass.old }
    ensures room { IsPassOf room.now pass.new }
    ensures works { AllZip (Works (author.Recompute number)) pass.old pass.new }
{
    'turns: for _ in rt.forever() {
        let last = ended.is_set();
        if !turn(rt, alloc, room, pass, number, pace)? {
            if last {
                return Ok(());
            }
            ended.pause(rt);
        }
    }
    Ok(())
}
