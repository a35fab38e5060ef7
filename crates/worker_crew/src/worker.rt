//! A worker of a room.
use bisect_workers::bisect_by;
use play_crew::{Ended, Room, RoomPass};
use recompute_workers::{AtGate, recompute_by};
use side_by_side::{Job, Worker};
use std::alloc::Global;
use std::marker::Model;
use std::sync::Wait;
use track_outside::{Gate, Place, Runner};

/// What the workers of a run have in common: the room, whether the scripts have ended, their gate, and the word of the test.
#[derive(Drop)]
pub struct Staff<'a, G> {
    pub alloc: Global,
    pub room: &'a Room,
    pub ended: &'a Ended,
    pub gate: &'a G,
    pub test: &'a str,
}

/// A worker of a room, with its number and its pass; and whether it met want of memory, which it hasn't before it is run.
#[derive(Drop)]
pub struct RoomWorker<'a, G> {
    alloc: Global,
    room: &'a Room,
    ended: &'a Ended,
    gate: &'a G,
    test: &'a str,
    number: u8,
    pass: RoomPass,
    wanting: bool,
}

impl<'a, G> Model for RoomWorker<'a, G> {
    ghost use Rattle.worker_crew.specs.Workers.{Working};

    ghost Value = { Working };

    ghost view = { λ w. record {
      number = w.number;
      word = w.test.now;
      room = w.room.now;
      pass = w.pass;
      wanting = w.wanting;
    } };
}

impl<'a, G> RoomWorker<'a, G> {
    ghost use Rattle.std.specs.Prelude.{◌≡◌};
    ghost use Rattle.worker_crew.specs.Workers.{working_at};

    // The worker of this number, with this pass.
    pub(crate) fn new(staff: &Staff<'a, G>, number: u8, pass: RoomPass) -> RoomWorker<'a, G>
        ensures { result ≡ working_at staff.now.room.now staff.now.test.now number pass }
    {
        RoomWorker {
            alloc: staff.alloc,
            room: staff.room,
            ended: staff.ended,
            gate: staff.gate,
            test: staff.test,
            number,
            pass,
            wanting: false,
        }
    }

    // Its pass, and whether it met want of memory.
    pub(crate) fn into_parts(self) -> (RoomPass, bool)
        ensures { (result.0 ≡ self.entry.pass) × (result.1 ≡ self.entry.wanting) }
    {
        let RoomWorker {
            alloc: _,
            room: _,
            ended: _,
            gate: _,
            test: _,
            number: _,
            pass,
            wanting,
        } = self;
        (pass, wanting)
    }
}

impl<'a, R: Wait + Sync, G: Gate> Job<R> for RoomWorker<'a, G> {
    ghost use Rattle.worker_crew.specs.Workers.{IsSeated, Recomputes};

    ghost can_run = { IsSeated };

    ghost comes_to = { Recomputes };

    fn run(&mut self, rt: &R) {
        let pace = AtGate {
            gate: self.gate,
            taken: Place::SeriesTaken(self.number),
            done: Place::SeriesDone(self.number),
        };
        let done = recompute_by(
            rt,
            self.alloc,
            self.room,
            &mut self.pass,
            self.number,
            self.ended,
            &pace,
        );
        self.wanting = done.is_err();
    }
}

impl<'a, R: Wait + Sync, A: Runner, G: Gate> Worker<R, A> for RoomWorker<'a, G> {
    ghost use Rattle.worker_crew.specs.Workers.{Bisects, IsSeated};

    ghost can_work = { λ w tool. IsSeated w };

    ghost work_gives = { Bisects A.Runner };

    fn work(&mut self, rt: &R, tool: &mut A) {
        let pace = AtGate {
            gate: self.gate,
            taken: Place::QuestionTaken(self.number),
            done: Place::AnswerReady(self.number),
        };
        let done = bisect_by(
            rt,
            self.alloc,
            self.room,
            &mut self.pass,
            self.number,
            self.test,
            tool,
            self.ended,
            &pace,
        );
        self.wanting = done.is_err();
    }
}
