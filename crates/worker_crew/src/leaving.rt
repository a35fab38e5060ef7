//! Workers that have returned.
ghost use Rattle.std.specs.{Prelude.{◌≡◌, map}, List.AllByRecursion, Vec.Iter.into_iter_items};
ghost use Rattle.play_crew.specs.{Rooms.{IsFirst, IsPassOf}, Shared.JoinsAll};
ghost use Rattle.worker_crew.specs.Workers.{IsOfRoom, any_wanting, pass_of};

use crate::worker::RoomWorker;
use play_crew::{Room, RoomPass};
use std::vec::IntoIter;

/// Joins the workers' passes into the first one, and tells whether one of them met want of memory. Takes no memory.
pub fn leave_workers<'a, G>(
    room: &Room,
    pass: &mut RoomPass,
    workers: Vec<RoomWorker<'a, G>>,
) -> bool
    requires room { IsPassOf room.now pass.old × IsFirst pass.old }
    requires workers { AllByRecursion (IsOfRoom room.now) workers.items }
    ensures room { IsPassOf room.now pass.new × IsFirst pass.new }
    ensures joined { JoinsAll pass.old (map pass_of workers.entry.items) pass.new }
    ensures wanting { result ≡ any_wanting workers.entry.items }
{
    leave_rest(room, pass, workers.into_iter())
}

// Those that are left.
fn leave_rest<'a, G>(
    room: &Room,
    pass: &mut RoomPass,
    mut workers: IntoIter<RoomWorker<'a, G>>,
) -> bool
    requires room { IsPassOf room.now pass.old × IsFirst pass.old }
    requires workers { AllByRecursion (IsOfRoom room.now) (into_iter_items workers) }
    ensures room { IsPassOf room.now pass.new × IsFirst pass.new }
    ensures joined { JoinsAll pass.old (map pass_of (into_iter_items workers.entry)) pass.new }
    ensures wanting { result ≡ any_wanting (into_iter_items workers.entry) }
{
    let Some(worker) = workers.next() else {
        return false;
    };
    let (other, wanting) = worker.into_parts();
    room.join(pass, other);
    let rest = leave_rest(room, pass, workers);
    wanting || rest
}
