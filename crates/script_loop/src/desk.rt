//! What answers the requests of a script.
ghost use Rattle.std.specs.Prelude.{IfOk, OnErr, Option};
ghost use Rattle.request_model.specs.declared.{requests.Request.Request, replies.Reply.Reply};

use crate::NoMemory;
use request_model::{Reply, Request};

/// What answers the requests of a script, and tells the replies, or some of them.
pub trait Desk {
    /// A request is answered so, between what stands before and what stands after: by a reply that is told, or by none.
    ghost answers: { Self → Request → Option Reply → Self → Type 0 };

    /// What may stand after an answer for which there was no memory.
    ghost fails: { Self → Self → Type 0 };

    /// Answers a request, by the reply that is told, if one is. Where there is no memory none is.
    fn answer(&mut self, request: &Request) -> Result<Option<Reply>, NoMemory>
        ensures told { IfOk result (λ told. answers self.old request.now told self.new) }
        ensures none { OnErr result (fails self.old self.new) };
}
