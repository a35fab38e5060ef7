//! The pace of a script in a shared run.
use script_loop::Pace;
use track_outside::{Gate, Place};

/// Each reply is handed out by itself, and then the gate passed, at the reply's place of the script of this number.
#[derive(Drop)]
pub struct OnReply<'a, G> {
    pub gate: &'a G,
    pub number: u8,
}

impl<'a, G: Gate> Pace for OnReply<'a, G> {
    ghost use Rattle.std.specs.Prelude.{true};

    ghost each = { true };

    fn is_due(&self, _holds_line: bool, _are_many: bool) -> bool {
        true
    }

    fn handed_out(&self) {
        self.gate.pass(Place::Replied(self.number));
    }
}
