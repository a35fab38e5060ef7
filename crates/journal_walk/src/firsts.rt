//! Where each version of a series is published first.
ghost use Rattle.std.specs.Prelude.{◌≡◌, ◌↔◌, [], if◌then◌else◌, IfOk, OnOk, IsTrue, Some};
ghost use Rattle.history_model.specs.Entries.{entries_of};
ghost use Rattle.journal_walk.specs.{Firsts.{AreFirsts, IsBefore, base_key, place_of, publishes}, declared.firsts.SeriesVersion.SeriesVersion};

use crate::NoMemory;
use history_model::{Entry, Placed, Publication};
use line_text::{Duplicate, Name};
use std::alloc::Global;
use std::collections::BTreeMap;
use std::marker::Model;

// A version of a series.
#[derive(Debug, PartialEq, Eq, PartialOrd, Ord, Drop)]
pub struct SeriesVersion {
    pub test: Name,
    pub metric: Name,
    pub version: u64,
}

// Where versions of series are published first, in order of test, metric and version.
#[derive(Drop)]
pub struct Firsts {
    alloc: Global,
    places: BTreeMap<SeriesVersion, usize>,
}

impl Model for Firsts {
    ghost use Rattle.journal_walk.specs.Firsts.{Places};

    ghost Value = { Places };

    ghost view = { λ f. f.places.entries };
}

impl Firsts {
    // No places.
    fn none(alloc: Global) -> Firsts
        ensures { result ≡ [] }
    {
        Firsts {
            alloc,
            places: BTreeMap::new(alloc),
        }
    }

    // The first places of a history. Takes the time of one look-up for each publication.
    pub fn of(alloc: Global, history: &[Placed]) -> Result<Firsts, NoMemory>
        ensures { IfOk result (AreFirsts (entries_of history.now)) }
    {
        let mut firsts = Firsts::none(alloc);
        let mut place = history.len();
        while place > 0 {
            place -= 1;
            firsts.put(&history[place].entry, place)?;
        }
        Ok(firsts)
    }

    // What an entry publishes has this place, which is before the others.
    fn put(&mut self, entry: &Entry, place: usize) -> Result<(), NoMemory>
        ensures { OnOk result ((key : SeriesVersion) → place_of key self.new
            ≡ (if publishes key entry.now then Some place else place_of key self.old)) }
    {
        if let Entry::Publish { publication } = entry {
            let p = publication.get();
            let key = SeriesVersion {
                test: p.test.copy(self.alloc)?,
                metric: p.metric.copy(self.alloc)?,
                version: p.version,
            };
            self.places.insert(key, place)?;
        }
        Ok(())
    }

    // Whether the base of a publication was published before its version.
    pub fn has_base(&self, p: &Publication) -> Result<bool, NoMemory>
        ensures { IfOk result (λ has. IsTrue has
            ↔ IsBefore p.now.version (place_of (base_key p.now) self.now)) }
    {
        let key = SeriesVersion {
            test: p.test.copy(self.alloc)?,
            metric: p.metric.copy(self.alloc)?,
            version: p.base,
        };
        match self.places.get(&key) {
            Some(place) => Ok((*place as u64) < p.version),
            None => Ok(false),
        }
    }
}
