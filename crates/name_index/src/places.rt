//! Where the names of a list stand: by a quick hash, and where that is taken in ordered maps.
ghost use Rattle.std.specs.Prelude.{◌≡◌, ◌≢◌, ◌<◌, ◌↔◌, ℕ, List, [], IsTrue, OnOk, IfOk, length, position, bytes_eq};
ghost use Rattle.name_index.specs.Placed.{slot, IsAt, AreFound, AreDistinct, StandsAt};

use crate::NoMemory;
use crate::hashes::{hard_hash, quick_hash};
use line_text::{Duplicate, Name};
use std::alloc::Global;
use std::collections::BTreeMap;

// How many slots there are at first. Later there are at least four for each name.
const FEWEST: usize = 16;

// The places of names. What is found is compared with a name, so that it only says where to look.
#[derive(Drop)]
pub struct Places {
    alloc: Global,
    // By the quick hash: one more than the place of the first name that has it, or 0.
    slots: Vec<u32>,
    // By the hard hash: the place of the first name that has it and whose slot was taken.
    hashed: BTreeMap<u64, usize>,
    // By name: the place of one whose hard hash was taken too.
    named: BTreeMap<Name, usize>,
}

impl Places {
    // No places.
    pub(crate) fn new(alloc: Global) -> Places
        ensures { AreFound [] result }
    {
        Places {
            alloc,
            slots: Vec::new(alloc),
            hashed: BTreeMap::new(alloc),
            named: BTreeMap::new(alloc),
        }
    }

    // No places, with so many slots for them.
    fn with_slots(alloc: Global, count: usize) -> Result<Places, NoMemory>
        ensures { IfOk result (λ made. length made.slots.items ≡ count) }
    {
        Ok(Places {
            alloc,
            slots: vec![in alloc; 0; count]?,
            hashed: BTreeMap::new(alloc),
            named: BTreeMap::new(alloc),
        })
    }

    // The places of some names, with so many slots.
    fn of(alloc: Global, names: &[Name], count: usize) -> Result<Places, NoMemory>
        requires some { 0 < count }
        requires distinct { AreDistinct names.now }
        ensures found { IfOk result (λ made. AreFound names.now made) }
        ensures some { IfOk result (λ made. 0 < length made.slots.items) }
    {
        let mut places = Places::with_slots(alloc, count)?;
        for (place, name) in names.iter().enumerate() {
            places.put(name, place)?;
        }
        Ok(places)
    }

    // Makes the slots twice as many where they are fewer than four for each name and one more.
    pub(crate) fn widen(&mut self, names: &[Name]) -> Result<(), NoMemory>
        requires found { AreFound names.now self.old }
        requires distinct { AreDistinct names.now }
        ensures found { AreFound names.now self.new }
        ensures some { OnOk result (0 < length self.new.slots.items) }
    {
        let count = self.slots.len();
        if names.len() < count / 4 {
            return Ok(());
        }
        *self = Places::of(self.alloc, names, (2 * count).max(FEWEST))?;
        Ok(())
    }

    // Puts the place of a name in; others stay, whether there is memory or not.
    pub(crate) fn put(&mut self, name: &Name, place: usize) -> Result<(), NoMemory>
        requires { 0 < length self.old.slots.items }
        ensures ok { OnOk result (IsAt self.new name.now place) }
        ensures others { (n : List ℕ) (i : ℕ) → n ≢ name.now → IsAt self.old n i
            → IsAt self.new n i }
        ensures slots { length self.new.slots.items ≡ length self.old.slots.items }
    {
        if place >= u32::MAX as usize {
            return Err(NoMemory);
        }
        let slot = quick_hash(name) as usize % self.slots.len();
        if self.slots[slot] == 0 {
            self.slots[slot] = (place + 1) as u32;
            return Ok(());
        }
        let hash = hard_hash(name);
        if self.hashed.get(&hash).is_none() {
            self.hashed.insert(hash, place)?;
            return Ok(());
        }
        self.named.insert(name.copy(self.alloc)?, place)?;
        Ok(())
    }

    // What stands in the slot of a name.
    fn slot(&self, name: &Name) -> usize
        ensures { result ≡ slot self.now name.now }
    {
        let count = self.slots.len();
        if count == 0 {
            return 0;
        }
        self.slots[quick_hash(name) as usize % count] as usize
    }

    // The place of a name among those that are found here.
    pub(crate) fn find(&self, names: &[Name], name: &Name) -> Option<usize>
        requires found { AreFound names.now self.now }
        requires distinct { AreDistinct names.now }
        ensures { result ≡ position (λ k. bytes_eq name.now k) names.now }
    {
        let slot = self.slot(name);
        if slot == 0 {
            return None;
        }
        if is_at(names, slot - 1, name) {
            return Some(slot - 1);
        }
        let place = *self.hashed.get(&hard_hash(name))?;
        if is_at(names, place, name) {
            return Some(place);
        }
        let place = *self.named.get(name)?;
        if is_at(names, place, name) {
            return Some(place);
        }
        None
    }
}

// Whether the name stands at the place.
fn is_at(names: &[Name], place: usize, name: &Name) -> bool
    ensures { IsTrue result ↔ StandsAt names.now place name.now }
{
    match names.get(place) {
        Some(there) => there == name,
        None => false,
    }
}
