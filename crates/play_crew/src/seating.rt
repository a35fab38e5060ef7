//! Passes for scripts, and scripts with their passes.
ghost use Rattle.std.specs.{Prelude.{◌≡◌, ◌≤◌, ◌+◌, ◌++◌, [], length, vec_capacity, IfOk, OnOk}, List.AllByRecursion, Vec.Iter.into_iter_items};
ghost use Rattle.play_seats.specs.{Rooms.{IsFirst, IsPassOf}, Seats.IsSeated, Shared.SplitsAll};
ghost use Rattle.play_crew.specs.Players.{SplitsMore, players_from};

use crate::NoMemory;
use crate::player::Player;
use play_seats::{Room, RoomPass};
use script_files::OpenScript;
use std::alloc::Global;
use std::sync::Wait;
use std::vec::IntoIter;

/// So many passes, split off the first one. Without memory some may have been split off, and are gone.
pub fn split_passes(
    alloc: Global,
    room: &Room,
    pass: &mut RoomPass,
    count: usize,
) -> Result<Vec<RoomPass>, NoMemory>
    requires room { IsPassOf room.now pass.old }
    requires first { IsFirst pass.old }
    ensures room { IsPassOf room.now pass.new × IsFirst pass.new }
    ensures ok { IfOk result (λ passes. SplitsAll pass.old passes.items pass.new) }
    ensures many { IfOk result (λ passes. length passes.items ≡ count) }
    ensures seated { IfOk result (λ passes. AllByRecursion (IsPassOf room.now) passes.items) }
{
    let mut passes = Vec::new(alloc);
    split_more(alloc, room, pass, count, &mut passes)?;
    Ok(passes)
}

// So many more.
fn split_more(
    alloc: Global,
    room: &Room,
    pass: &mut RoomPass,
    count: usize,
    passes: &mut Vec<RoomPass>,
) -> Result<(), NoMemory>
    requires room { IsPassOf room.now pass.old }
    requires first { IsFirst pass.old }
    ensures room { IsPassOf room.now pass.new × IsFirst pass.new }
    ensures ok { OnOk result (SplitsMore room.now count pass.old pass.new
        passes.old.items passes.new.items) }
{
    if count == 0 {
        return Ok(());
    }
    passes.reserve(1)?;
    let other = room.split(alloc, pass)?;
    passes.push_reserved(other);
    split_more(alloc, room, pass, count - 1, passes)
}

/// Gives each script that is open a pass, and a number from 1 on, and adds them to the players, for which there must be room.
pub fn seat_scripts<'a, R: Wait, I: Drop, O: Drop, G>(
    rt: &'a R,
    alloc: Global,
    room: &'a Room,
    gate: &'a G,
    passes: Vec<RoomPass>,
    opened: Vec<OpenScript<I, O>>,
    players: &mut Vec<Player<'a, R, I, O, G>>,
)
    requires paired { length passes.items ≡ length opened.items }
    requires few { length passes.items ≤ 255 }
    requires seated { AllByRecursion (IsSeated room.now) passes.items }
    requires none { players.old.items ≡ [] }
    requires room { length passes.items ≤ vec_capacity players.old }
    ensures { players.new.items ≡ players_from room.now 1 passes.items opened.items }
{
    seat_rest(
        rt,
        alloc,
        room,
        gate,
        0,
        passes.into_iter(),
        opened.into_iter(),
        players,
    );
}

// Those that are left, behind so many.
fn seat_rest<'a, R: Wait, I: Drop, O: Drop, G>(
    rt: &'a R,
    alloc: Global,
    room: &'a Room,
    gate: &'a G,
    number: u8,
    mut passes: IntoIter<RoomPass>,
    mut opened: IntoIter<OpenScript<I, O>>,
    players: &mut Vec<Player<'a, R, I, O, G>>,
)
    requires paired { length (into_iter_items passes) ≡ length (into_iter_items opened) }
    requires few { number + length (into_iter_items passes) ≤ 255 }
    requires seated { AllByRecursion (IsSeated room.now) (into_iter_items passes) }
    requires room { length players.old.items + length (into_iter_items passes)
        ≤ vec_capacity players.old }
    ensures { players.new.items ≡ players.old.items
        ++ players_from room.now (number + 1) (into_iter_items passes) (into_iter_items opened) }
{
    let Some(pass) = passes.next() else {
        return;
    };
    let Some(script) = opened.next() else {
        unreachable!()
    };
    let number = number + 1;
    players.push_reserved(Player::new(rt, alloc, room, gate, number, pass, script));
    seat_rest(rt, alloc, room, gate, number, passes, opened, players);
}
