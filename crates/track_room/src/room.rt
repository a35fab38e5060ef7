//! Machines that running scripts share, and what each of these knows of them.
ghost use Rattle.std.specs.{Prelude.{◌≡◌, ◌≤◌, IfOk, IfErr, IsOkAnd, OnOk, OnErr, length, map}, List.AllZip};
ghost use Rattle.metric_table.specs.{Limits.most, declared.limits.Limit.TheVariants.Machines};
ghost use Rattle.track_room.specs.{Asked.Asks, Closing.IsCause, Rooms.{AreSame, HaveGivenMarks, IsFirst, IsPassOf, IsSplitBack, IsWhole, JoinsEach}, Sights.{Ends, EndsWhole, IsFirstOf, SeesMore, splitting, split_off, tracks_of}};

use crate::NoMemory;
use crate::closing::{CloseFault, close_each};
use crate::machine::{MachineLock, MachinePass};
use crate::passes::{join_each, split_all};
use crate::place::place_of;
use history_model::Author;
use request_model::{Answer, Refusal, Reply, Request};
use std::alloc::Global;
use std::marker::Model;
use std::sync::Wait;
use track_state::TrackState;

/// Machines, each under a lock of its own. Contracts see the locks, each with its machine's name, in order.
#[derive(Drop)]
pub struct Room {
    pub(crate) machines: Vec<MachineLock>,
    // Where the machines' states go when the room ends: it has room for them.
    pub(crate) ended: Vec<TrackState>,
}

impl Model for Room {
    ghost use Rattle.std.specs.Prelude.{◌≡◌, ◌≤◌, List, [], length, vec_capacity};
    ghost use Rattle.metric_table.specs.{Limits.most, declared.limits.Limit.TheVariants.Machines};
    ghost use Rattle.track_room.specs.Sights.{Home};

    ghost Value = { List Home };

    ghost view = { λ r. r.machines.items };

    ghost invariant = { λ r. (length r.machines.items ≤ most Machines)
        × (r.ended.items ≡ []) × (length r.machines.items ≤ vec_capacity r.ended) };
}

/// A pass of each machine of a room. Contracts see what is known of each, in order.
#[derive(Drop)]
pub struct RoomPass {
    pub(crate) machines: Vec<MachinePass>,
}

impl Model for RoomPass {
    ghost use Rattle.std.specs.Prelude.{List};
    ghost use Rattle.track_room.specs.Sights.{Sight};

    ghost Value = { List Sight };

    ghost view = { λ r. r.machines.items };
}

impl Room {
    /// A room of these machines, and its first pass, which has seen what they have. Without memory they are dropped. Linear
    /// in the machines.
    pub fn new(alloc: Global, states: Vec<TrackState>) -> Result<(Room, RoomPass), NoMemory>
        requires few { length states.items ≤ most Machines }
        ensures pass { IfOk result (λ made. IsPassOf made.0 made.1 × IsFirst made.1) }
        ensures first { IfOk result (λ made. AllZip IsFirstOf (tracks_of states.items) made.1) }
    {
        let ended = Vec::with_capacity(alloc, states.len())?;
        let mut machines = Vec::new(alloc);
        let mut passes = Vec::new(alloc);
        for state in states {
            let (machine, pass) = MachineLock::new(alloc, state)?;
            machines.push(machine)?;
            passes.push(pass)?;
        }
        Ok((Room { machines, ended }, RoomPass { machines: passes }))
    }

    /// Splits a pass off the first one. It has seen as much, and no entry bears its marks yet. Without memory the first pass
    /// is as it was, but that some marks may have been given and joined back. Linear in the machines.
    pub fn split(&self, alloc: Global, pass: &mut RoomPass) -> Result<RoomPass, NoMemory>
        requires room { IsPassOf self.now pass.old }
        requires first { IsFirst pass.old }
        ensures room { IsPassOf self.now pass.new × IsFirst pass.new }
        ensures other { IfOk result (IsPassOf self.now) }
        ensures ok { IfOk result (λ other. other ≡ map split_off pass.old) }
        ensures pass { OnOk result (pass.new ≡ map splitting pass.old) }
        ensures marks { OnOk result (HaveGivenMarks pass.old) }
        ensures err { OnErr result (AllZip IsSplitBack pass.old pass.new) }
    {
        let others = split_all(alloc, &self.machines, &mut pass.machines)?;
        Ok(RoomPass { machines: others })
    }

    /// Joins a pass into the first one, which has then seen of each machine the longer of what both had seen. Takes no
    /// memory. Linear in the machines.
    pub fn join(&self, pass: &mut RoomPass, other: RoomPass)
        requires room { IsPassOf self.now pass.old }
        requires first { IsFirst pass.old }
        requires other { IsPassOf self.now other }
        ensures room { IsPassOf self.now pass.new × IsFirst pass.new }
        ensures joined { JoinsEach pass.old other pass.new }
    {
        let RoomPass { machines: others } = other;
        join_each(&self.machines, &mut pass.machines, others);
    }

    /// Ends the room, and gives its machines in order, each with all that was added. Takes no memory, and waits for nobody;
    /// where it refuses, the machines are dropped. With a whole pass it never refuses. Linear in the machines.
    pub fn close(self, _alloc: Global, pass: RoomPass) -> Result<Vec<TrackState>, CloseFault>
        requires room { IsPassOf self pass }
        ensures ok { IfOk result (λ states. AllZip Ends pass (tracks_of states.items)) }
        ensures err { IfErr result (IsCause pass) }
        ensures whole { IsWhole pass → IsOkAnd result (λ states.
            AllZip EndsWhole pass (tracks_of states.items)) }
    {
        let Room { machines, ended } = self;
        let RoomPass { machines: passes } = pass;
        close_each(machines, passes, ended)
    }

    /// Answers a request. What is about a machine of the room is answered by its history, others a reply apart: no machine
    /// is declared here. A segmentation is computed outside the lock, on what the history had before, and published then;
    /// other requests enter once. May wait for other passes. Without memory nothing is added, and the pass may have seen
    /// more. Linear in the machines, and then as the request on one thread.
    pub fn ask<R: Wait>(
        &self,
        rt: &R,
        alloc: Global,
        pass: &mut RoomPass,
        author: Author,
        request: &Request,
    ) -> Result<Reply, NoMemory>
        requires room { IsPassOf self.now pass.old }
        ensures room { IsPassOf self.now pass.new }
        ensures same { AreSame pass.old pass.new × (IsFirst pass.old → IsFirst pass.new) }
        ensures ok { IfOk result (λ reply.
            Asks self.now author request.now reply pass.old pass.new) }
        ensures err { OnErr result (AllZip SeesMore pass.old pass.new) }
    {
        if let Request::Machine { .. } = request {
            return Ok(apart(Answer::Refused(Refusal::OnlyAlone)));
        }
        let Some(i) = place_of(&self.machines, request.machine()) else {
            return Ok(apart(Answer::Refused(Refusal::UnknownMachine)));
        };
        self.machines[i].ask(rt, alloc, &mut pass.machines[i], author, request)
    }
}

// An answer that names no history.
fn apart(answer: Answer) -> Reply
    ensures { result ≡ record { step = 0; answer = answer } }
{
    Reply { step: 0, answer }
}
