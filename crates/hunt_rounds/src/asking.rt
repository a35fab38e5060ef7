//! An ask, made by a thread of its own.
ghost use Rattle.std.specs.Prelude.{⊤};
ghost use Rattle.hunt_rounds.specs.{Asked.WasAsked, Rounds.asks_of};

use crate::NoMemory;
use side_by_side::Worker;
use std::alloc::Global;
use std::sync::Wait;
use track_outside::{OutError, Runner};

/// The ask of the test of a commit, and what was answered: a status, or none where it failed; before the answer, as where
/// memory is wanting.
#[derive(Drop)]
pub struct Asking<'a> {
    pub alloc: Global,
    pub test: &'a str,
    pub commit: &'a str,
    pub answer: Result<Option<u8>, NoMemory>,
}

impl<'a, W: Wait, A: Runner> Worker<W, A> for Asking<'a> {
    ghost can_work = { λ _ _. ⊤ };

    ghost work_gives = { λ old runner new runner'.
        WasAsked A.Runner (asks_of old.test.now old.commit.now new.answer) runner runner' };

    fn work(&mut self, _rt: &W, runner: &mut A) {
        self.answer = match runner.ask(self.alloc, self.test, self.commit) {
            Ok(status) => Ok(Some(status)),
            Err(OutError::Failed) => Ok(None),
            Err(OutError::NoMemory) => Err(NoMemory),
        };
    }
}
