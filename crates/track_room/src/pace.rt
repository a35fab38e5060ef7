//! What a worker tells of its way.
use track_outside::{Gate, Place};

/// Is told each time that a worker has taken something, and when it has done it.
pub trait Pace {
    /// A series or a question was taken.
    fn taken(&self);

    /// The series was published, or is no longer wanted; or the question's runner has answered or failed, before that is
    /// said.
    fn done(&self);
}

/// Passes a gate then.
#[derive(Drop)]
pub struct AtGate<'a, G> {
    /// The gate.
    pub gate: &'a G,
    /// Where the worker is once it has taken something.
    pub taken: Place,
    /// Where it is once it has done it.
    pub done: Place,
}

impl<'a, G: Gate> Pace for AtGate<'a, G> {
    fn taken(&self) {
        self.gate.pass(self.taken);
    }

    fn done(&self) {
        self.gate.pass(self.done);
    }
}
