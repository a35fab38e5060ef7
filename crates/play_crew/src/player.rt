//! A script that is played.
use crate::desk::RoomDesk;
use history_model::Author;
use play_seats::{OnReply, Room, RoomPass, Stop, play_script};
use script_files::OpenScript;
use side_by_side::Job;
use std::alloc::Global;
use std::marker::Model;
use std::sync::Wait;
use track_outside::{Gate, Sink, Source};

/// A script with its seat and its files, and how it ended; before it is run it has ended well. Contracts see its number, its
/// seat, its input, its transcript and its end.
#[derive(Drop)]
pub struct Player<'a, R: Wait, I, O, G> {
    alloc: Global,
    pub(crate) desk: RoomDesk<'a, R>,
    gate: &'a G,
    number: u8,
    pub(crate) script: OpenScript<I, O>,
    pub(crate) ended: Result<(), Stop>,
}

impl<'a, R: Wait, I, O, G> Model for Player<'a, R, I, O, G> {
    ghost use Rattle.play_crew.specs.Players.{Playing};

    ghost Value = { Playing I O };

    ghost view = { λ p. record {
      number = p.number;
      seat = p.desk;
      input = p.script.input;
      output = p.script.output;
      ended = p.ended;
    } };
}

impl<'a, R: Wait, I, O, G> Player<'a, R, I, O, G> {
    ghost use Rattle.std.specs.Prelude.{◌≡◌};
    ghost use Rattle.play_seats.specs.Seats.{IsSeated};
    ghost use Rattle.play_crew.specs.Players.{open_of, playing_at};

    // The script of this number, with this pass.
    pub(crate) fn new(
        rt: &'a R,
        alloc: Global,
        room: &'a Room,
        gate: &'a G,
        number: u8,
        pass: RoomPass,
        script: OpenScript<I, O>,
    ) -> Player<'a, R, I, O, G>
        requires { IsSeated room.now pass }
        ensures { result ≡ playing_at room.now number pass script }
    {
        Player {
            alloc,
            desk: RoomDesk::new(rt, alloc, room, pass, Author::Script(number)),
            gate,
            number,
            script,
            ended: Ok(()),
        }
    }

    // The pass, how the script ended, and its files.
    pub(crate) fn into_parts(self) -> (RoomPass, Result<(), Stop>, OpenScript<I, O>)
        ensures { (result.0 ≡ self.entry.seat.pass) × (result.1 ≡ self.entry.ended)
            × (result.2 ≡ open_of self.entry) }
    {
        let Player {
            alloc: _,
            desk,
            gate: _,
            number: _,
            script,
            ended,
        } = self;
        (desk.into_pass(), ended, script)
    }
}

impl<'a, R: Wait + Sync, I: Source, O: Sink, G: Gate> Job<R> for Player<'a, R, I, O, G> {
    ghost use Rattle.play_crew.specs.Players.{CanPlay, Plays};

    ghost can_run = { CanPlay O.Sink };

    ghost comes_to = { Plays I.Source O.Sink };

    fn run(&mut self, _rt: &R) {
        let pace = OnReply {
            gate: self.gate,
            number: self.number,
        };
        self.ended = play_script(
            self.alloc,
            &mut self.desk,
            &pace,
            &mut self.script.input,
            &mut self.script.output,
        );
    }
}
