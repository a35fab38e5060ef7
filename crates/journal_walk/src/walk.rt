//! A walk along a history.
ghost use Rattle.std.specs.Prelude.{◌≡◌, false, true, length, IfOk, IfSome, IfNone, OnErr, Some};
ghost use Rattle.history_model.specs.Entries.{entries_of};
ghost use Rattle.history_model.specs.declared.entries.Author.TheVariants as author;
ghost use Rattle.history_model.specs.declared.entries.Placed.{Placed};
ghost use Rattle.journal_lines.specs.Authors.{IsPublication};
ghost use Rattle.machine_state.specs.Made.{IsPlain};
ghost use Rattle.journal_walk.specs.Walks.{AreCutsNow, GoesOn, IsAlong, IsPublishedNext, IsStuck, PublishesNothing, added, coming};
ghost use Rattle.track_model.specs.{Counts.is_segment, Outcomes.Outcome, Tracks.{ComesTo, IsStep, new_track}};
ghost use Rattle.request_model.specs.Requests.{machine_of};

use crate::NoMemory;
use crate::ahead::{Ahead, meet_needs};
use crate::made::best_cuts;
use crate::now::version_now;
use crate::steps::publish_next;
use crate::tables::Tables;
use history_model::{Author, Entry, Placed};
use line_text::{Duplicate, Name};
use machine_state::MachineState;
use request_model::{Reply, Request};
use std::alloc::Global;
use std::marker::Model;
use track_step::{replay, step};

/// A walk along a history: its first entries, so many, are those of a state.
#[derive(Drop)]
pub struct Walk<'a> {
    history: &'a [Placed],
    track: MachineState,
    ahead: Ahead,
    // A segmentation begins with the table of its series' last one.
    tables: Tables,
}

impl<'a> Model for Walk<'a> {
    ghost use Rattle.std.specs.Coded.{codes};
    ghost use Rattle.history_model.specs.Entries.{entries_of};
    ghost use Rattle.track_model.specs.Tracks.{coded_home};
    ghost use Rattle.journal_walk.specs.{Ahead.KeepsAhead, Walks.Walked};

    ghost Value = { Walked };

    ghost coded = { Prim.hlevel (codes, coded_home) };

    ghost view = { λ w. record { history = w.history.now; track = w.track } };

    ghost invariant = { λ w. KeepsAhead (entries_of w.history.now) (entries_of w.track.history) w.ahead };
}

impl<'a> Walk<'a> {
    /// A walk along a machine's history, at its beginning. Linear in the history, but that its publications are sorted.
    pub fn new(alloc: Global, machine: Name, history: &'a [Placed]) -> Result<Walk<'a>, NoMemory>
        ensures { IfOk result (λ walk. walk
            ≡ record { history = history.now; track = new_track machine true }) }
    {
        let ahead = Ahead::new(alloc, history)?;
        let track = MachineState::new(alloc, machine, true);
        Ok(Walk {
            history,
            track,
            ahead,
            tables: Tables::none(alloc),
        })
    }

    /// A walk along the same history, at its beginning.
    pub fn again(&self, alloc: Global) -> Result<Walk<'a>, NoMemory>
        ensures { IfOk result (λ walk. walk ≡ record {
          history = self.now.history;
          track = new_track self.now.track.machine true;
        }) }
    {
        let machine = self.track.machine().copy(alloc)?;
        Walk::new(alloc, machine, self.history)
    }

    /// How many entries were added.
    pub fn len(&self) -> u64
        ensures { result ≡ length self.now.track.history }
    {
        self.track.len()
    }

    /// The state behind them.
    pub fn track(&self) -> &MachineState
        ensures { result.now ≡ self.now.track }
    {
        &self.track
    }

    /// How many cuts the best segmentation of a series has now; 0 where it isn't known. Changes nothing that is seen.
    pub fn cuts_now(&mut self, alloc: Global, test: &Name, metric: &Name) -> Result<u64, NoMemory>
        ensures cuts { IfOk result (AreCutsNow (added self.old)
            (record { test = test.now; metric = metric.now })) }
        ensures same { self.new ≡ self.old }
    {
        match version_now(&mut self.track, test, metric)? {
            Some(now) => best_cuts(alloc, test, metric, &now),
            None => Ok(0),
        }
    }

    /// Adds the next entry of the history; false exactly where it isn't allowed behind those before it, or there is none, and
    /// nothing is added then. Takes the time of the state's indexes, and for a publication that of its segmentation, which
    /// begins with the table of its series' last one, where that has the same setting and there was memory to keep it.
    pub fn go_on(&mut self) -> Result<bool, NoMemory>
        requires { IsAlong self.old }
        ensures added { IfOk result (λ added. added ≡ true → GoesOn self.old self.new) }
        ensures stuck { IfOk result (λ added. added ≡ false → IsStuck self.old) }
        ensures kept { IfOk result (λ added. added ≡ false → self.new ≡ self.old) }
        ensures same { OnErr result (self.new ≡ self.old) }
    {
        if self.publishes() {
            let reply = self.publish_next()?;
            return Ok(reply.is_some());
        }
        meet_needs(self.history, &mut self.track, &mut self.ahead)?;
        let place = self.track.len() as usize;
        let Some(next) = self.history.get(place) else {
            return Ok(false);
        };
        let entry = next.entry.copy(self.track.alloc())?;
        let added = replay(&mut self.track, entry)?;
        Ok(added)
    }

    // Whether the entry that comes next is a publication.
    fn publishes(&self) -> bool
        ensures next { result ≡ true → (p : Placed) × (coming self.now ≡ Some p)
            × IsPublication p.entry }
        ensures plain { result ≡ false → (p : Placed) → coming self.now ≡ Some p → IsPlain p.entry }
    {
        let place = self.track.len() as usize;
        let Some(next) = self.history.get(place) else {
            return false;
        };
        match &next.entry {
            Entry::Publish { publication: _ } => true,
            _ => false,
        }
    }

    /// Adds the next entry of the history, if it is a publication, and gives the reply to the request for it; none exactly
    /// where it is none, or isn't allowed behind those before it, and nothing is added then. Takes the time of a
    /// segmentation, as [`Walk::go_on`] does.
    pub fn publish_next(&mut self) -> Result<Option<Reply>, NoMemory>
        requires { IsAlong self.old }
        ensures published { IfOk result (λ o. IfSome o (IsPublishedNext self.old self.new)) }
        ensures none { IfOk result (λ o. IfNone o (PublishesNothing self.old)) }
        ensures kept { IfOk result (λ o. IfNone o (self.new ≡ self.old)) }
        ensures same { OnErr result (self.new ≡ self.old) }
    {
        meet_needs(self.history, &mut self.track, &mut self.ahead)?;
        let place = self.track.len() as usize;
        let Some(next) = self.history.get(place) else {
            return Ok(None);
        };
        let Entry::Publish { publication } = &next.entry else {
            return Ok(None);
        };
        let p = publication.get();
        let reply = publish_next(
            self.history,
            &mut self.track,
            &mut self.ahead,
            &mut self.tables,
            p,
        )?;
        Ok(reply)
    }

    /// Answers a request about the machine that segments nothing, and adds what it adds, which may be another entry than the
    /// history has next.
    pub fn answer(&mut self, request: &Request) -> Result<Reply, NoMemory>
        requires asked { machine_of request.now ≡ self.old.track.machine }
        requires plain { is_segment request.now ≡ false }
        ensures step { IfOk result (λ reply. (o : Outcome) × ComesTo (added self.old) 0 request.now o
            × IsStep self.old.track author.Kept o self.new.track reply) }
        ensures same { OnErr result (self.new ≡ self.old) }
        ensures history { self.new.history ≡ self.old.history }
    {
        meet_needs(self.history, &mut self.track, &mut self.ahead)?;
        let reply = step(&mut self.track, Author::Kept, request)?;
        Ok(reply)
    }
}
