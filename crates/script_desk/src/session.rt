//! The machines of one thread.
ghost use Rattle.std.specs.Prelude.{◌≡◌, All, IfOk, OnErr};
ghost use Rattle.track_model.specs.Counts.{Counts};
ghost use Rattle.script_desk.specs.{Growth.ComesBack, Sessions.{HasLegalHistory, Keeps, RepliesTo}};

use crate::NoMemory;
use crate::counting::CountingDesk;
use crate::machines::answer_request;
use history_model::Author;
use keep_rows::{comes_back_law, may_be_kept_law};
use machine_state::MachineState;
use pelt_core::Steps;
use request_model::{Reply, Request};
use std::alloc::Global;
use std::marker::Model;
use std::sync::ledger::Ledger;

/// The machines of one thread, with the author of the entries that are added. Contracts see the author and the tracks, in
/// order of declaration.
#[derive(Drop)]
pub struct Session {
    alloc: Global,
    author: Author,
    machines: Vec<MachineState>,
}

impl Model for Session {
    ghost use Rattle.keep_rows.specs.Codes.{track_codes};
    ghost use Rattle.script_desk.specs.Sessions.{State};

    ghost Value = { State };

    ghost coded = { Prim.hlevel track_codes };

    ghost view = { λ s. record { author = s.author; tracks = s.machines.items } };
}

impl Session {
    /// A session on these machines.
    pub fn new(alloc: Global, author: Author, machines: Vec<MachineState>) -> Session
        ensures { result ≡ record { author = author; tracks = machines.items } }
    {
        Session {
            alloc,
            author,
            machines,
        }
    }

    // Answers a request.
    pub(crate) fn reply_to<L: Ledger>(
        &mut self,
        request: &Request,
        steps: &mut Steps<L>,
    ) -> Result<Reply, NoMemory>
        ensures replied { IfOk result (λ reply. RepliesTo self.old request.now reply self.new) }
        ensures steps { IfOk result (λ reply.
            Counts request.now reply.answer steps.old steps.new) }
        ensures left { OnErr result (Keeps self.old self.new) }
    {
        answer_request(self.alloc, self.author, &mut self.machines, request, steps)
    }

    /// Says what the machines keep: each has a legal history. Changes nothing: its contract is what it is for.
    pub fn histories_law(&self)
        ensures { All HasLegalHistory self.now.tracks }
    {
        for machine in &self.machines {
            machine.history_law();
        }
    }

    /// Rows that led to the machines that the session began with, and the new rows of those that stand now, lead to each of
    /// the latter as it is kept. Changes nothing: its contract is what it is for. Linear in the entries of the machines.
    pub fn comes_back_law(&self)
        ensures { ComesBack self.now }
    {
        comes_back_law();
        may_be_kept_law(self.machines());
    }

    /// The machines. Takes no memory.
    pub fn machines(&self) -> &[MachineState]
        ensures { result.now ≡ self.now.tracks }
    {
        &self.machines
    }
}

impl CountingDesk for Session {
    ghost use Rattle.script_desk.specs.Sessions.{AnswersFor, Keeps};

    ghost answers = { AnswersFor };

    ghost fails = { Keeps };

    fn answer<L: Ledger>(
        &mut self,
        request: &Request,
        steps: &mut Steps<L>,
    ) -> Result<Option<Reply>, NoMemory> {
        let reply = self.reply_to(request, steps)?;
        Ok(Some(reply))
    }
}
