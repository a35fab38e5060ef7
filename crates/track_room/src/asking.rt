//! Requests, answered on one machine.
ghost use Rattle.std.specs.Prelude.{◌≡◌, IfOk, OnErr};
ghost use Rattle.request_model.specs.declared.requests.Request.TheVariants as request;
ghost use Rattle.request_model.specs.Requests.{machine_of};
ghost use Rattle.track_model.specs.Tracks.{IsAsked};
ghost use Rattle.track_room.specs.{Asked.IsReplied, Sights.SeesMore};

use crate::NoMemory;
use crate::machine::{MachineLock, MachinePass};
use crate::visits::{Answering, Beginning, Finishing};
use history_model::{Author, publication_law};
use line_text::Name;
use request_model::{Reply, Request};
use std::alloc::Global;
use std::sync::Wait;
use track_state::{Begun, compute_apart};

impl MachineLock {
    // Answers a request about this machine.
    pub(crate) fn ask<R: Wait>(
        &self,
        rt: &R,
        alloc: Global,
        pass: &mut MachinePass,
        author: Author,
        request: &Request,
    ) -> Result<Reply, NoMemory>
        requires lock { pass.old.home ≡ self.now }
        requires machine { machine_of request.now ≡ self.now.machine }
        requires asked { IsAsked request.now }
        ensures ok { IfOk result (λ reply.
            IsReplied author request.now reply pass.old pass.new) }
        ensures err { OnErr result (SeesMore pass.old pass.new) }
    {
        match request {
            Request::Segment {
                machine: _,
                test,
                metric,
            } => self.segment(rt, alloc, pass, author, test, metric),
            _ => self.visit(rt, pass, Answering { author, request }),
        }
    }

    // Segments a series of what the pass has then seen, outside the lock, and publishes it.
    pub(crate) fn segment<R: Wait>(
        &self,
        rt: &R,
        alloc: Global,
        pass: &mut MachinePass,
        author: Author,
        test: &Name,
        metric: &Name,
    ) -> Result<Reply, NoMemory>
        requires lock { pass.old.home ≡ self.now }
        ensures ok { IfOk result (λ reply. IsReplied author
            (request.Segment self.now.machine test.now metric.now) reply pass.old pass.new) }
        ensures err { OnErr result (SeesMore pass.old pass.new) }
    {
        publication_law();
        let begun = self.visit(rt, pass, Beginning { test, metric })?;
        match begun {
            Begun::Unknown(reply) => Ok(reply),
            Begun::Known(snapshot) => {
                let redone = compute_apart(alloc, snapshot)?;
                let finishing = Finishing { author, redone };
                self.visit(rt, pass, finishing)
            }
        }
    }
}
