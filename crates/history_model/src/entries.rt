//! The kinds of entries of a history, who made them, and what is read from them.

use crate::NoMemory;
use crate::events::{JobEvent, RegressionEvent};
use crate::publication::Publication;
use crate::run::Run;
use line_text::{Boxed, Duplicate, Name};
use std::alloc::Global;

/// Who made an entry.
#[derive(Clone, Copy, Debug, PartialEq, Eq)]
pub enum Author {
    /// It was kept from an earlier session.
    Kept,
    /// The script of this number.
    Script(u8),
    /// The worker of this number that recomputes segmentations.
    Recompute(u8),
    /// The worker of this number that bisects.
    Bisect(u8),
}

/// What a machine's history is made of.
#[derive(Clone, Debug, Drop)]
pub enum Entry {
    /// A commit was declared, with its number in the order of commits.
    Commit {
        number: u64,
        name: Name,
    },
    /// A run was accepted.
    Accept {
        run: Run,
    },
    /// The run of that name was taken back.
    Retract {
        run: Name,
    },
    /// The penalty of a metric was set, in squared units of its last decimal, and the least length of its segments.
    Tune {
        metric: Name,
        penalty: Boxed<i128>,
        length: u8,
    },
    /// A segmentation of a series was published.
    Publish {
        publication: Boxed<Publication>,
    },
    /// A regression was raised, or moved to another state.
    Regression {
        event: RegressionEvent,
    },
    /// A bisection was begun, answered or given up.
    Job {
        event: JobEvent,
    },
}

/// An equal entry of its own. Linear in the number of a run's samples and of a publication's cuts, else constant time.
impl Duplicate for Entry {
    fn copy(&self, _alloc: Global) -> Result<Entry, NoMemory> {
        self.clone()
    }
}

/// An entry with its author.
#[derive(Clone, Debug, Drop)]
pub struct Placed {
    /// Who made it.
    pub author: Author,
    /// What it says.
    pub entry: Entry,
}

/// An equal one of its own, in the time that the copy of its entry takes.
impl Duplicate for Placed {
    fn copy(&self, _alloc: Global) -> Result<Placed, NoMemory> {
        self.clone()
    }
}

/// A commit, with the step at which it was declared.
#[derive(Clone, Debug, Drop)]
pub struct Declaration {
    /// The number of its entry in the history, from 1.
    pub step: u64,
    /// Its number in the order of commits.
    pub number: u64,
    /// Its name.
    pub name: Name,
}

/// An equal one of its own. The names share their text, so it takes constant time.
impl Duplicate for Declaration {
    fn copy(&self, _alloc: Global) -> Result<Declaration, NoMemory> {
        self.clone()
    }
}

/// A run, with the step at which it was accepted.
#[derive(Clone, Debug, Drop)]
pub struct Acceptance {
    /// The number of its entry in the history, from 1.
    pub step: u64,
    /// What was accepted.
    pub run: Run,
}

/// An equal one of its own. Linear in the number of samples.
impl Duplicate for Acceptance {
    fn copy(&self, _alloc: Global) -> Result<Acceptance, NoMemory> {
        self.clone()
    }
}
