//! What answers the requests of a script by steps that are counted.
ghost use Rattle.std.specs.Prelude.{IfOk, OnErr, Option};
ghost use Rattle.request_model.specs.declared.{requests.Request.Request, replies.Reply.Reply};
ghost use Rattle.script_desk.specs.Counting.{CountsTold};

use crate::NoMemory;
use pelt_core::Steps;
use request_model::{Reply, Request};
use std::sync::ledger::Ledger;

/// What answers the requests of a script as a desk does, and counts the steps that they take.
pub trait CountingDesk {
    /// A request is answered so, between what stands before and what stands after: by a reply that is told, or by none.
    ghost answers: { Self → Request → Option Reply → Self → Type 0 };

    /// What may stand after an answer for which there was no memory.
    ghost fails: { Self → Self → Type 0 };

    /// Answers a request, by the reply that is told, if one is. Where there is no memory none is, and what was counted
    /// by then stays counted.
    fn answer<L: Ledger>(
        &mut self,
        request: &Request,
        steps: &mut Steps<L>,
    ) -> Result<Option<Reply>, NoMemory>
        ensures answered { IfOk result (λ told. answers self.old request.now told self.new) }
        ensures steps { IfOk result (λ told. CountsTold request.now told steps.old steps.new) }
        ensures none { OnErr result (fails self.old self.new) };
}
