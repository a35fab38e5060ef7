//! What a walk keeps for publications that are to come: what their series were at the versions that they speak of.
ghost use Rattle.std.specs.Prelude.{◌≡◌, ◌+◌, ◌<◌, [], IfOk, OnOk, Some, None, if◌then◌else◌, length, replicate, slice_get, set};
ghost use Rattle.history_model.specs.Entries.{entries_of};
ghost use Rattle.journal_walk.specs.Ahead.{AllMet, KeepsAhead};

use crate::NoMemory;
use crate::firsts::Firsts;
use crate::needs::{Need, plan_of};
use crate::now::version_now;
use crate::version::Version;
use history_model::{Entry, Placed};
use machine_state::MachineState;
use std::alloc::Global;

// What is kept for the publications of a history.
#[derive(Drop)]
pub struct Ahead {
    // What is needed, in order.
    pub needs: Vec<Need>,
    // So many of them were met.
    pub met: usize,
    // By the place of a publication: its series at its base.
    pub bases: Vec<Option<Version>>,
    // And at the version that it speaks of.
    pub versions: Vec<Option<Version>>,
    // Where what is a base was published.
    pub firsts: Firsts,
}

impl Ahead {
    // What is kept at the beginning of a walk. Takes the time to sort the publications.
    pub fn new(alloc: Global, history: &[Placed]) -> Result<Ahead, NoMemory>
        ensures { IfOk result (KeepsAhead (entries_of history.now) []) }
    {
        Ok(Ahead {
            needs: plan_of(alloc, history)?,
            met: 0,
            bases: nothing(alloc, history.len())?,
            versions: nothing(alloc, history.len())?,
            firsts: Firsts::of(alloc, history)?,
        })
    }

    // A need was met: this is what the series was.
    fn put(&mut self, need: Need, found: Option<Version>)
        requires met { self.old.met < length self.old.needs.items }
        requires base { need.place < length self.old.bases.items }
        requires version { need.place < length self.old.versions.items }
        ensures needs { self.new.needs.items ≡ self.old.needs.items }
        ensures met { self.new.met ≡ self.old.met + 1 }
        ensures bases { self.new.bases.items ≡ (if need.is_base
            then set self.old.bases.items need.place found else self.old.bases.items) }
        ensures versions { self.new.versions.items ≡ (if need.is_base
            then self.old.versions.items else set self.old.versions.items need.place found) }
        ensures firsts { self.new.firsts ≡ self.old.firsts }
    {
        if need.is_base {
            self.bases[need.place] = found;
        } else {
            self.versions[need.place] = found;
        }
        self.met += 1;
    }

    // What was kept for the publication at a place isn't needed any more.
    pub fn let_go(&mut self, place: usize)
        requires base { place < length self.old.bases.items }
        requires version { place < length self.old.versions.items }
        ensures needs { self.new.needs.items ≡ self.old.needs.items }
        ensures met { self.new.met ≡ self.old.met }
        ensures bases { self.new.bases.items ≡ set self.old.bases.items place None }
        ensures versions { self.new.versions.items ≡ set self.old.versions.items place None }
        ensures firsts { self.new.firsts ≡ self.old.firsts }
    {
        self.bases[place] = None;
        self.versions[place] = None;
    }
}

// Nothing, so often.
fn nothing(alloc: Global, count: usize) -> Result<Vec<Option<Version>>, NoMemory>
    ensures { IfOk result (λ slots. slots.items ≡ replicate count None) }
{
    let mut slots = Vec::new(alloc);
    let mut made = 0;
    while made < count {
        slots.push(None)?;
        made += 1;
    }
    Ok(slots)
}

// Meets the next need, which is one of the present.
fn meet(
    history: &[Placed],
    track: &mut MachineState,
    ahead: &mut Ahead,
    need: Need,
) -> Result<(), NoMemory>
    requires keeps { KeepsAhead (entries_of history.now) (entries_of track.old.history) ahead.old }
    requires next { slice_get ahead.old.needs.items ahead.old.met ≡ Some need }
    requires now { need.at ≡ length track.old.history }
    requires inside { need.place < length history.now }
    ensures keeps { KeepsAhead (entries_of history.now) (entries_of track.old.history) ahead.new }
    ensures met { OnOk result (ahead.new.met ≡ ahead.old.met + 1) }
    ensures needs { ahead.new.needs.items ≡ ahead.old.needs.items }
    ensures same { track.new ≡ track.old }
{
    let Entry::Publish { publication } = &history[need.place].entry else {
        unreachable!();
    };
    let p = publication.get();
    let found = version_now(track, &p.test, &p.metric)?;
    ahead.put(need, found);
    Ok(())
}

// Meets all needs up to the present. Takes the time of one look-up for each, beside what freezing the positions takes.
pub fn meet_needs(
    history: &[Placed],
    track: &mut MachineState,
    ahead: &mut Ahead,
) -> Result<(), NoMemory>
    requires { KeepsAhead (entries_of history.now) (entries_of track.old.history) ahead.old }
    ensures keeps { KeepsAhead (entries_of history.now) (entries_of track.old.history) ahead.new }
    ensures met { OnOk result (AllMet (entries_of track.old.history) ahead.new) }
    ensures same { track.new ≡ track.old }
{
    while ahead.met < ahead.needs.len() {
        let need = ahead.needs[ahead.met];
        if need.at > track.len() {
            return Ok(());
        }
        meet(history, track, ahead, need)?;
    }
    Ok(())
}
