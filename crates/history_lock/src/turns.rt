//! How a pass comes to its turn and lets the next one come.
//!
//! A turn is drawn where the lock is free, so it has come at once. Where the lock is taken a pass looks again after a few
//! spins, and then it sleeps until a pass that leaves wakes it. So whoever runs goes on, and no turn falls to a pass that
//! isn't running. A pass that found the lock taken each time that it was woken draws its turn all the same at last, and is
//! served before all that come later.
//!
//! The rule of the lock says nothing of the words `ASLEEP` and `QUEUED`, and no proof says that a pass which sleeps is
//! woken. That none sleeps for good, as long as each pass that is inside leaves, is argued here. The steps of all threads
//! have one order, and the system puts a thread to sleep on a word in one step with comparing that word.
//! - Before a pass sleeps on `ASLEEP` it writes 1 there, and then it finds a turn that is drawn and not served, since it
//!   looks first at the turns served and then at those drawn. Whoever has that turn looks at `ASLEEP` as he leaves, so
//!   after the 1 was written. If he finds 0, another wrote it since, and wakes a sleeper next; a pass that isn't asleep by
//!   then finds the 0, and doesn't fall asleep unless 1 was written once more, of which the same holds.
//! - A pass that was woken writes 1 again before it looks for a turn, for the sake of those that still sleep. It gets a
//!   turn, and looks at `ASLEEP` as it leaves, or it finds the lock taken, and then the first point holds of it.
//! - A pass that queues counts itself in `QUEUED` before it looks at the turns served, and sleeps on that word only while
//!   it is what it found (fewer than 2^32 turns are served in between). Whoever serves a turn looks at `QUEUED` after
//!   that, and wakes all that sleep on the word.
ghost use Rattle.std.specs.Prelude.{◌≡◌, ◌<◌, [], IfSome, IfNone};

use crate::historied::Historied;
use crate::lock::HistoryLock;
use crate::plays::{Aside, Draw, DrawIfFree, Look, PassOn};
use crate::view::SeatOf;
use std::hint;
use std::sync::Wait;

// How many turns were drawn, modulo 2^64.
pub(crate) const TICKET: usize = 1;

// How many turns were served, modulo 2^64.
pub(crate) const SERVING: usize = 2;

// 1 where a pass may sleep on this word until the lock is free, else 0.
const ASLEEP: usize = 3;

// How many passes have drawn a turn that may not have come.
const QUEUED: usize = 4;

// A sleep compares the low 32 bits of the word.
const LOW: u64 = 0xffff_ffff;

// How often a pass spins between two looks, twice as long each time.
const MOST_SPINS: u32 = 7;

// How often it looks before it draws a turn although the lock is taken. Behind the spins it sleeps between two looks.
const MOST_LOOKS: u32 = MOST_SPINS + 8;

// Lets a little time go by.
fn spin(looks: u32)
    requires { looks < 32 }
{
    for _ in 0..1u32 << looks {
        hint::spin_loop();
    }
}

impl<S: Historied> HistoryLock<S> {
    ghost use Rattle.history_lock.specs.{Rule.at_stage, Marks.entries, Steps.{Carries, Comes, Drew, HasCome, IsOut, Waits}, Steps.in_slot, declared.view.Stage.TheVariants.Outside};

    // Draws a turn if the lock is free. No turn is served before it is drawn, so the one drawn has come.
    fn draw_if_free(&self, seat: &mut SeatOf<S>) -> Option<u64>
        requires lock { seat.old.table_id ≡ self.now.table.shared.table_id }
        requires outside { IsOut seat.old.me }
        ensures lock { (seat.new.table_id ≡ seat.old.table_id) × (seat.new.id ≡ seat.old.id) }
        ensures some { IfSome result (λ turn. Drew turn seat.old.me seat.new.me) }
        ensures none { IfNone result (seat.new.me ≡ seat.old.me) }
    {
        let shared = &self.table.shared;
        let serving = shared.peek(SERVING);
        if shared.peek(TICKET) != serving {
            return None;
        }
        let next = serving.wrapping_add(1);
        if shared.compare_exchange::<DrawIfFree>(seat, TICKET, serving, next) != serving {
            return None;
        }
        Some(serving)
    }

    // Waits until the turn is served. It spins some times, and then it sleeps until a pass leaves.
    fn wait_for<R: Wait>(&self, rt: &R, seat: &mut SeatOf<S>, turn: u64)
        requires lock { seat.old.table_id ≡ self.now.table.shared.table_id }
        requires waits { Waits turn seat.old.me }
        ensures lock { (seat.new.table_id ≡ seat.old.table_id) × (seat.new.id ≡ seat.old.id) }
        ensures come { HasCome S.history S.label seat.old.me seat.new.me }
    {
        let shared = &self.table.shared;
        let mut looks = 0u32;
        for _ in rt.forever() {
            let serving = shared.load::<Look>(seat, SERVING);
            if serving == turn {
                return;
            }
            if looks >= MOST_SPINS {
                shared.park(rt, SERVING, (serving & LOW) as u32);
            } else {
                spin(looks);
                looks += 1;
            }
        }
        unreachable!()
    }

    // Spins, or sleeps until the lock may be free where it has spun enough or others sleep.
    fn rest<R: Wait>(&self, rt: &R, seat: &mut SeatOf<S>, looks: u32)
        requires lock { seat.old.table_id ≡ self.now.table.shared.table_id }
        ensures lock { (seat.new.table_id ≡ seat.old.table_id) × (seat.new.id ≡ seat.old.id) }
        ensures same { seat.new.me ≡ seat.old.me }
    {
        let shared = &self.table.shared;
        if looks < MOST_SPINS && shared.peek(ASLEEP) == 0 {
            spin(looks);
            return;
        }
        shared.store::<Aside>(seat, ASLEEP, 1);
        let serving = shared.peek(SERVING);
        if shared.peek(TICKET) != serving {
            shared.park(rt, ASLEEP, 1);
            shared.store::<Aside>(seat, ASLEEP, 1);
        }
    }

    // Draws a turn although the lock is taken, and waits for it.
    fn queue<R: Wait>(&self, rt: &R, seat: &mut SeatOf<S>)
        requires lock { seat.old.table_id ≡ self.now.table.shared.table_id }
        requires outside { IsOut seat.old.me }
        ensures lock { (seat.new.table_id ≡ seat.old.table_id) × (seat.new.id ≡ seat.old.id) }
        ensures come { Comes S.history S.label seat.old.me seat.new.me }
    {
        let shared = &self.table.shared;
        let turn = shared.fetch_add::<Draw>(seat, TICKET, 1);
        shared.fetch_add::<Aside>(seat, QUEUED, 1);
        self.wait_for(rt, seat, turn);
        shared.fetch_sub::<Aside>(seat, QUEUED, 1);
    }

    // Waits until a turn of the pass has come.
    pub(crate) fn take_turn<R: Wait>(&self, rt: &R, seat: &mut SeatOf<S>)
        requires lock { seat.old.table_id ≡ self.now.table.shared.table_id }
        requires outside { IsOut seat.old.me }
        ensures lock { (seat.new.table_id ≡ seat.old.table_id) × (seat.new.id ≡ seat.old.id) }
        ensures come { Comes S.history S.label seat.old.me seat.new.me }
    {
        for looks in 0..MOST_LOOKS {
            if let Some(turn) = self.draw_if_free(seat) {
                self.wait_for(rt, seat, turn);
                return;
            }
            self.rest(rt, seat, looks);
        }
        self.queue(rt, seat);
    }

    // Lets the next turn come. Wakes those that queue, and one that sleeps until the lock is free, if there may be any.
    pub(crate) fn pass_on(&self, seat: &mut SeatOf<S>)
        requires lock { seat.old.table_id ≡ self.now.table.shared.table_id }
        requires carries { Carries S.label seat.old.me }
        requires stands { in_slot S.history seat.old.me.1 ≡ entries seat.old.me.0.seen }
        ensures lock { (seat.new.table_id ≡ seat.old.table_id) × (seat.new.id ≡ seat.old.id) }
        ensures outside { (seat.new.me.0 ≡ at_stage seat.old.me.0 Outside) × (seat.new.me.1 ≡ []) }
    {
        let shared = &self.table.shared;
        shared.fetch_add::<PassOn>(seat, SERVING, 1);
        if shared.peek(QUEUED) != 0 {
            shared.wake_all(SERVING);
        }
        if shared.peek(ASLEEP) != 0 {
            shared.store::<Aside>(seat, ASLEEP, 0);
            shared.wake_one(ASLEEP);
        }
    }
}
