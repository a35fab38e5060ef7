//! The desk of a script at a room.
ghost use Rattle.std.specs.Prelude.{◌≡◌};
ghost use Rattle.play_seats.specs.Seats.{IsSeated};

use crate::NoMemory;
use history_model::Author;
use play_seats::{Beside, Room, RoomPass};
use request_model::{Reply, Request};
use script_loop::Desk;
use std::alloc::Global;
use std::marker::Model;
use std::sync::Wait;

/// A script's place at a room: its pass of the machines, and whose entries it adds. Contracts see the author, the room and
/// what the pass knows.
#[derive(Drop)]
pub struct RoomDesk<'a, R: Wait> {
    rt: &'a R,
    alloc: Global,
    room: &'a Room,
    pass: RoomPass,
    author: Author,
}

impl<'a, R: Wait> Model for RoomDesk<'a, R> {
    ghost use Rattle.play_seats.specs.Seats.{Seat, IsSeated};

    ghost Value = { Seat };

    ghost view = { λ d. record { author = d.author; room = d.room.now; pass = d.pass } };

    ghost invariant = { λ d. IsSeated d.room.now d.pass };
}

impl<'a, R: Wait> RoomDesk<'a, R> {
    /// The place of a script of this author, with this pass.
    pub fn new(
        rt: &'a R,
        alloc: Global,
        room: &'a Room,
        pass: RoomPass,
        author: Author,
    ) -> RoomDesk<'a, R>
        requires { IsSeated room.now pass }
        ensures { result ≡ record { author = author; room = room.now; pass = pass } }
    {
        RoomDesk {
            rt,
            alloc,
            room,
            pass,
            author,
        }
    }

    /// The pass, as the script leaves it.
    pub fn into_pass(self) -> RoomPass
        ensures { result ≡ self.entry.pass }
    {
        self.pass
    }
}

impl<'a, R: Wait> Desk for RoomDesk<'a, R> {
    ghost use Rattle.play_seats.specs.Seats.{AnswersAt, FailsAt};

    ghost answers = { AnswersAt };

    ghost fails = { FailsAt };

    fn answer(&mut self, request: &Request) -> Result<Option<Reply>, NoMemory> {
        let reply = self
            .room
            .ask(self.rt, self.alloc, &mut self.pass, self.author, request)?;
        Ok(Some(reply))
    }
}

impl<'a, R: Wait> Beside for RoomDesk<'a, R> {
    ghost use Rattle.play_seats.{specs.Seats.post_of, proofs.Seats.{asks-told, waits-at}};

    ghost post = { post_of };

    ghost asking = { asks-told };

    ghost wanting = { waits-at };
}
