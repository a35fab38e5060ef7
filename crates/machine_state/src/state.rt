//! The state of a machine: its entries, and how one is added.
ghost use Rattle.std.specs.Prelude.{◌≡◌, ◌+◌, ◌-◌, ◌<◌, [], ◌∷◌, ◌++◌, IfOk, OnOk, OnErr, length, slice_get, option_copied, None};
ghost use Rattle.history_model.specs.{Entries.entries_of, Allowed.{Allowed, KeepsLimits, Legal}, Runs.known_series};
ghost use Rattle.track_model.specs.{Outcomes.tells, Replies.reply_of, Tracks.{new_track, with_entry}};
ghost use Rattle.machine_state.specs.Made.{IsPlain};

use crate::NoMemory;
use crate::follow::follow;
use crate::following::Following;
use history_model::{
    Author, Entry, Placed, between_law, growth_law, jobs_law, limits_law, positions_law,
    publication_law, regressions_law, retraction_law, setting_law,
};
use line_text::Name;
use order_index::OrderIndex;
use publication_index::{PublicationIndex, SettingIndex};
use request_model::{Answer, Reply};
use sample_store::SampleStore;
use series_index::SeriesIndex;
use std::alloc::Global;
use std::marker::Model;

/// A machine with its history.
#[derive(Drop)]
pub struct MachineState {
    pub(crate) alloc: Global,
    pub(crate) machine: Name,
    pub(crate) kept: bool,
    pub(crate) history: Vec<Placed>,
    pub(crate) commits: OrderIndex,
    pub(crate) runs: SampleStore,
    pub(crate) series: SeriesIndex,
    pub(crate) known: u64,
    pub(crate) settings: SettingIndex,
    pub(crate) published: PublicationIndex,
    pub(crate) cuts: u64,
    pub(crate) following: Following,
}

impl Model for MachineState {
    ghost use Rattle.history_model.specs.Entries.{entries_of};
    ghost use Rattle.track_model.specs.Tracks.{Track, coded_home};
    ghost use Rattle.std.specs.Coded.{codes};
    ghost use Rattle.publication_index.specs.Homes.{homes};
    ghost use Rattle.machine_state.specs.State.{StandsFor};

    ghost Value = { Track };

    ghost coded = { Prim.hlevel (codes, coded_home) };

    ghost view = { λ s. record {
      machine = s.machine;
      kept = s.kept;
      history = s.history.items;
      home = homes s.published;
    } };

    ghost invariant = { λ s.
        StandsFor (entries_of s.history.items) s.commits s.runs s.series s.known
        s.settings s.published s.cuts s.following };
}

impl MachineState {
    /// A state of no entries. `kept` says whether the machine has a row in the store.
    pub fn new(alloc: Global, machine: Name, kept: bool) -> MachineState
        ensures { result ≡ new_track machine kept }
    {
        MachineState {
            alloc,
            machine,
            kept,
            history: Vec::new(alloc),
            commits: OrderIndex::new(alloc),
            runs: SampleStore::new(alloc),
            series: SeriesIndex::new(alloc),
            known: 0,
            settings: SettingIndex::new(alloc),
            published: PublicationIndex::new(alloc),
            cuts: 0,
            following: Following::new(alloc),
        }
    }

    /// The history keeps its limits and is legal. Changes nothing: its contract is what it is for.
    pub fn history_law(&self)
        ensures limits { KeepsLimits (entries_of self.now.history) }
        ensures legal { Legal (entries_of self.now.history) }
    {
        let _ = &self.history;
    }

    /// Where its memory comes from.
    pub fn alloc(&self) -> Global {
        self.alloc
    }

    /// The machine's name. Takes no memory.
    pub fn machine(&self) -> &Name
        ensures { result.now ≡ self.now.machine }
    {
        &self.machine
    }

    /// Whether the machine had a row in the store.
    pub fn was_kept(&self) -> bool
        ensures { result ≡ self.now.kept }
    {
        self.kept
    }

    /// How many entries the history has.
    pub fn len(&self) -> u64
        ensures { result ≡ length self.now.history }
    {
        self.history.len() as u64
    }

    /// The entry of a step, from 1; none exactly outside 1 to the length. Takes no memory.
    pub fn entry(&self, k: u64) -> Option<&Placed>
        ensures zero { k ≡ 0 → result ≡ None }
        ensures there { 0 < k → option_copied result ≡ slice_get self.now.history (k - 1) }
    {
        if k == 0 {
            return None;
        }
        self.history.get((k - 1) as usize)
    }

    /// The reply of an answer that adds nothing.
    pub fn told(&self, answer: Answer) -> Reply
        ensures { result ≡ reply_of (entries_of self.now.history) (tells answer) }
    {
        Reply {
            step: self.len(),
            answer,
        }
    }

    /// Adds an entry that is no publication, is allowed and makes so many series known, and gives its step. Where there is
    /// no memory, nothing changes. Takes the time of its indexes: linear in the samples of a run.
    pub fn add(&mut self, author: Author, entry: Entry, more: u64) -> Result<u64, NoMemory>
        requires allowed { Allowed (entries_of self.old.history) entry }
        requires plain { IsPlain entry }
        requires more { length (known_series (entries_of self.old.history ++ entry ∷ []))
            ≡ length (known_series (entries_of self.old.history)) + more }
        ensures step { IfOk result (λ step. step ≡ length (entries_of self.old.history) + 1) }
        ensures track { OnOk result (self.new ≡ with_entry author self.old entry) }
        ensures same { OnErr result (self.new ≡ self.old) }
    {
        growth_law();
        positions_law();
        retraction_law();
        limits_law();
        setting_law();
        publication_law();
        regressions_law();
        jobs_law();
        between_law();
        self.history.reserve(1)?;
        let step = self.history.len() as u64 + 1;
        follow(
            self.alloc,
            &mut self.commits,
            &mut self.runs,
            &mut self.series,
            &mut self.settings,
            &mut self.following,
            step,
            &entry,
        )?;
        self.history.push_reserved(Placed { author, entry });
        self.known += more;
        Ok(step)
    }
}
