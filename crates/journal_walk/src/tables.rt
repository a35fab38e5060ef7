//! The tables of the segmentations that were published last, by series.
ghost use Rattle.std.specs.Prelude.{◌≡◌};

use crate::NoMemory;
use crate::start::Start;
use history_model::Publication;
use line_text::{Duplicate, Name};
use machine_state::MachineState;
use std::alloc::Global;
use std::collections::BTreeMap;

// The tables of series, by test and metric. A segmentation is the same whichever table it begins with, so nothing is said of
// which is kept.
#[derive(Drop)]
pub struct Tables {
    alloc: Global,
    tests: BTreeMap<Name, BTreeMap<Name, Start>>,
}

impl Tables {
    // No tables.
    pub fn none(alloc: Global) -> Tables {
        Tables {
            alloc,
            tests: BTreeMap::new(alloc),
        }
    }

    // Takes the table that is kept of a publication's series, if one is.
    pub fn take(&mut self, p: &Publication) -> Option<Start> {
        match self.tests.get_mut(&p.test) {
            Some(metrics) => metrics.remove(&p.metric),
            None => None,
        }
    }

    // Keeps the table of a series' last publication, which it takes out of a state, where that has the present setting.
    pub fn keep(&mut self, track: &mut MachineState, p: &Publication) -> Result<(), NoMemory>
        ensures machine { track.new.machine ≡ track.old.machine }
        ensures history { track.new.history ≡ track.old.history }
    {
        match taken(track, p)? {
            Some(start) => self.put(p, start),
            None => Ok(()),
        }
    }

    // Keeps a table of a publication's series.
    fn put(&mut self, p: &Publication, start: Start) -> Result<(), NoMemory> {
        let metric = p.metric.copy(self.alloc)?;
        if let Some(metrics) = self.tests.get_mut(&p.test) {
            metrics.insert(metric, start)?;
            return Ok(());
        }
        let test = p.test.copy(self.alloc)?;
        let mut metrics = BTreeMap::new(self.alloc);
        metrics.insert(metric, start)?;
        self.tests.insert(test, metrics)?;
        Ok(())
    }
}

// Takes the table of the last publication of a publication's series out of a state, where that has the present setting.
fn taken(track: &mut MachineState, p: &Publication) -> Result<Option<Start>, NoMemory>
    ensures machine { track.new.machine ≡ track.old.machine }
    ensures history { track.new.history ≡ track.old.history }
{
    let setting = track.setting(&p.metric);
    match track.take_base(&p.test, &p.metric)? {
        Some(base) => Ok(Some(Start {
            points: base.points,
            setting,
            table: Some(base.table),
        })),
        None => Ok(None),
    }
}
