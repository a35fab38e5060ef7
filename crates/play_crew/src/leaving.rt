//! Players that have returned.
ghost use Rattle.std.specs.{Prelude.{◌≡◌, ◌≤◌, ◌+◌, ◌++◌, length, map, vec_capacity}, List.AllByRecursion, Vec.Iter.into_iter_items};
ghost use Rattle.play_seats.specs.{Rooms.{IsFirst, IsPassOf}, Shared.JoinsAll};
ghost use Rattle.play_crew.specs.Players.{IsOfRoom, end_of, open_of, pass_of};

use crate::player::Player;
use play_seats::{Room, RoomPass, Stop};
use script_files::OpenScript;
use std::sync::Wait;
use std::vec::IntoIter;

/// Joins the players' passes into the first one, and adds how each ended, and its open files, to lists that have room for
/// them. Takes no memory.
pub fn leave<'a, R: Wait, I: Drop, O: Drop, G>(
    room: &Room,
    pass: &mut RoomPass,
    players: Vec<Player<'a, R, I, O, G>>,
    ended: &mut Vec<Result<(), Stop>>,
    files: &mut Vec<OpenScript<I, O>>,
)
    requires room { IsPassOf room.now pass.old × IsFirst pass.old }
    requires players { AllByRecursion (IsOfRoom room.now) players.items }
    requires ended { length ended.old.items + length players.items ≤ vec_capacity ended.old }
    requires files { length files.old.items + length players.items ≤ vec_capacity files.old }
    ensures room { IsPassOf room.now pass.new × IsFirst pass.new }
    ensures joined { JoinsAll pass.old (map pass_of players.entry.items) pass.new }
    ensures ended { ended.new.items ≡ ended.old.items ++ map end_of players.entry.items }
    ensures files { files.new.items ≡ files.old.items ++ map open_of players.entry.items }
{
    leave_rest(room, pass, players.into_iter(), ended, files);
}

// Those that are left.
fn leave_rest<'a, R: Wait, I: Drop, O: Drop, G>(
    room: &Room,
    pass: &mut RoomPass,
    mut players: IntoIter<Player<'a, R, I, O, G>>,
    ended: &mut Vec<Result<(), Stop>>,
    files: &mut Vec<OpenScript<I, O>>,
)
    requires room { IsPassOf room.now pass.old × IsFirst pass.old }
    requires players { AllByRecursion (IsOfRoom room.now) (into_iter_items players) }
    requires ended { length ended.old.items + length (into_iter_items players)
        ≤ vec_capacity ended.old }
    requires files { length files.old.items + length (into_iter_items players)
        ≤ vec_capacity files.old }
    ensures room { IsPassOf room.now pass.new × IsFirst pass.new }
    ensures joined { JoinsAll pass.old (map pass_of (into_iter_items players.entry)) pass.new }
    ensures ended { ended.new.items ≡ ended.old.items ++ map end_of (into_iter_items players.entry) }
    ensures files { files.new.items ≡ files.old.items ++ map open_of (into_iter_items players.entry) }
{
    let Some(player) = players.next() else {
        return;
    };
    let (other, so, script) = player.into_parts();
    room.join(pass, other);
    ended.push_reserved(so);
    files.push_reserved(script);
    leave_rest(room, pass, players, ended, files);
}
