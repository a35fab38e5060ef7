//! A session of which the replies about segmentations alone are told.
ghost use Rattle.std.specs.Prelude.{◌≡◌, All, Some, None, if◌then◌else◌};
ghost use Rattle.script_desk.specs.Sessions.{HasLegalHistory, is_of_segmentations};

use crate::NoMemory;
use crate::counting::CountingDesk;
use crate::session::Session;
use pelt_core::Steps;
use request_model::{Reply, Request};
use std::marker::Model;
use std::sync::ledger::Ledger;

/// A session that tells the replies about segmentations alone: to requests for the segmentation of a series, or for its
/// changes. It answers all requests. Contracts see it as the session.
#[derive(Drop)]
pub struct Trial {
    session: Session,
}

impl Model for Trial {
    ghost use Rattle.keep_rows.specs.Codes.{track_codes};
    ghost use Rattle.script_desk.specs.Sessions.{State};

    ghost Value = { State };

    ghost coded = { Prim.hlevel track_codes };

    ghost view = { λ s. s.session };
}

impl Trial {
    /// A trial over the session.
    pub fn new(session: Session) -> Trial
        ensures { result ≡ session }
    {
        Trial { session }
    }

    /// Says what the machines keep, as [`Session::histories_law`] does.
    pub fn histories_law(&self)
        ensures { All HasLegalHistory self.now.tracks }
    {
        self.session.histories_law();
    }
}

// Whether the request is for the segmentation of a series, or for its changes.
fn is_of_segmentations(request: &Request) -> bool
    ensures { result ≡ is_of_segmentations request.now }
{
    match request {
        Request::Segment { .. } => true,
        Request::Changes { .. } => true,
        _ => false,
    }
}

// The reply, where it is to be told.
fn told_if(is_told: bool, reply: Reply) -> Option<Reply>
    ensures { result ≡ (if is_told then Some reply else None) }
{
    if is_told { Some(reply) } else { None }
}

impl CountingDesk for Trial {
    ghost use Rattle.script_desk.specs.Sessions.{AnswersSome, Keeps};

    ghost answers = { AnswersSome };

    ghost fails = { Keeps };

    fn answer<L: Ledger>(
        &mut self,
        request: &Request,
        steps: &mut Steps<L>,
    ) -> Result<Option<Reply>, NoMemory> {
        let reply = self.session.reply_to(request, steps)?;
        Ok(told_if(is_of_segmentations(request), reply))
    }
}
