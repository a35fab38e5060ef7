//! Workers with their passes.
ghost use Rattle.std.specs.{Prelude.{◌≡◌, ◌≤◌, ◌+◌, ◌++◌, [], length, vec_capacity}, Vec.Iter.into_iter_items};
ghost use Rattle.worker_crew.specs.Workers.{workers_from};

use crate::worker::{RoomWorker, Staff};
use play_crew::RoomPass;
use std::vec::IntoIter;

/// A worker for each pass, numbered from 1 on. There must be room for them.
pub fn seat_workers<'a, G>(
    staff: &Staff<'a, G>,
    passes: Vec<RoomPass>,
    workers: &mut Vec<RoomWorker<'a, G>>,
)
    requires few { length passes.items ≤ 255 }
    requires none { workers.old.items ≡ [] }
    requires room { length passes.items ≤ vec_capacity workers.old }
    ensures { workers.new.items
        ≡ workers_from staff.now.room.now staff.now.test.now 1 passes.items }
{
    seat_rest(staff, 0, passes.into_iter(), workers);
}

// Those that are left, behind so many.
fn seat_rest<'a, G>(
    staff: &Staff<'a, G>,
    number: u8,
    mut passes: IntoIter<RoomPass>,
    workers: &mut Vec<RoomWorker<'a, G>>,
)
    requires few { number + length (into_iter_items passes) ≤ 255 }
    requires room { length workers.old.items + length (into_iter_items passes)
        ≤ vec_capacity workers.old }
    ensures { workers.new.items ≡ workers.old.items
        ++ workers_from staff.now.room.now staff.now.test.now (number + 1)
        (into_iter_items passes) }
{
    let Some(pass) = passes.next() else {
        return;
    };
    let number = number + 1;
    workers.push_reserved(RoomWorker::new(staff, number, pass));
    seat_rest(staff, number, passes, workers);
}
