//! The state, and how it is made and given back.
ghost use Rattle.std.specs.Prelude.{◌≡◌, ◌-◌, ◌<◌, None, length, option_copied, slice_get};
ghost use Rattle.track_model.specs.Tracks.{new_track};
ghost use Rattle.track_state.specs.Work.{unclaimed};

use crate::NoMemory;
use history_model::Placed;
use line_text::Name;
use std::alloc::Global;
use std::marker::Model;
use touch_index::TouchIndex;
use track_step::MachineState;

/// A machine's state with the claims on its series and jobs.
#[derive(Drop)]
pub struct TrackState {
    pub(crate) track: MachineState,
    pub(crate) touched: TouchIndex,
    pub(crate) seen: u64,
    pub(crate) claimed: Vec<u64>,
}

impl Model for TrackState {
    ghost use Rattle.history_model.specs.Entries.{entries_of};
    ghost use Rattle.std.specs.Coded.{codes};
    ghost use Rattle.track_model.specs.Tracks.{coded_home};
    ghost use Rattle.track_state.specs.{Work.Work, Covering.Covers};

    ghost Value = { Work };

    ghost coded = { Prim.hlevel (codes, coded_home) };

    ghost view = { λ w. record { track = w.track; marks = w.touched; jobs = w.claimed.items } };

    ghost invariant = { λ w. Covers (entries_of w.track.history) w.seen w.touched };
}

impl TrackState {
    /// A machine of no entries, of which nothing is claimed. `kept` says whether it has a row in the store.
    pub fn new(alloc: Global, machine: Name, kept: bool) -> TrackState
        ensures { result ≡ unclaimed (new_track machine kept) }
    {
        TrackState::of(MachineState::new(alloc, machine, kept))
    }

    /// The machine's name. Takes no memory.
    pub fn machine(&self) -> &Name
        ensures { result.now ≡ self.now.track.machine }
    {
        self.track.machine()
    }

    /// Whether the machine had a row in the store.
    pub fn was_kept(&self) -> bool
        ensures { result ≡ self.now.track.kept }
    {
        self.track.was_kept()
    }

    /// How many entries the history has.
    pub fn len(&self) -> u64
        ensures { result ≡ length self.now.track.history }
    {
        self.track.len()
    }

    /// The entry of a step, from 1; none exactly outside 1 to the length. Takes no memory.
    pub fn entry(&self, k: u64) -> Option<&Placed>
        ensures zero { k ≡ 0 → result ≡ None }
        ensures there { 0 < k → option_copied result ≡ slice_get self.now.track.history (k - 1) }
    {
        self.track.entry(k)
    }

    /// A machine of which nothing is claimed.
    pub fn of(track: MachineState) -> TrackState
        ensures { result ≡ unclaimed track }
    {
        let alloc = track.alloc();
        TrackState {
            track,
            touched: TouchIndex::new(alloc),
            seen: 0,
            claimed: Vec::new(alloc),
        }
    }

    /// The machine's state.
    pub fn track(&self) -> &MachineState
        ensures { result.now ≡ self.now.track }
    {
        &self.track
    }

    /// The machine's state, without the claims.
    pub fn into_track(self) -> MachineState
        ensures { result ≡ self.track }
    {
        let TrackState { track, .. } = self;
        track
    }

    /// Ends every claim on a series or a job, and changes nothing else.
    pub fn end_claims(&mut self)
        ensures { self.new ≡ unclaimed self.old.track }
    {
        let alloc = self.track.alloc();
        self.touched = TouchIndex::new(alloc);
        self.seen = 0;
        self.claimed = Vec::new(alloc);
    }
}
