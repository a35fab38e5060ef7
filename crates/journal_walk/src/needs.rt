//! What is needed for the publications of a history, and when.
ghost use Rattle.std.specs.Prelude.{◌≡◌, ◌++◌, IfOk, OnOk};
ghost use Rattle.history_model.specs.Entries.{entries_of};
ghost use Rattle.journal_walk.specs.Needs.{IsPlan, needs_from, needs_of};

use crate::NoMemory;
use history_model::{Entry, Placed};
use std::alloc::Global;

// What the series of the publication at a place of a history is needed at: its version, or its base.
#[derive(Clone, Copy)]
pub struct Need {
    // So many entries come before.
    pub at: u64,
    // The place of the publication.
    pub place: usize,
    // Whether it is the base.
    pub is_base: bool,
}

// What is needed for the publications of a history, in the order in which it comes. Takes the time to sort it.
pub fn plan_of(alloc: Global, history: &[Placed]) -> Result<Vec<Need>, NoMemory>
    ensures { IfOk result (λ needs. IsPlan (entries_of history.now) needs.items) }
{
    let mut needs = needs_in(alloc, history)?;
    needs.sort_by_key(|need| need.at)?;
    Ok(needs)
}

// The same in the order of the publications.
fn needs_in(alloc: Global, history: &[Placed]) -> Result<Vec<Need>, NoMemory>
    ensures { IfOk result (λ needs. needs.items ≡ needs_from 0 (entries_of history.now)) }
{
    let mut needs = Vec::new(alloc);
    let mut place = 0;
    for placed in history {
        put_needs(&mut needs, place, &placed.entry)?;
        place += 1;
    }
    Ok(needs)
}

// Puts what is needed for the entry at a place behind others.
fn put_needs(needs: &mut Vec<Need>, place: usize, entry: &Entry) -> Result<(), NoMemory>
    ensures { OnOk result (needs.new.items ≡ needs.old.items ++ needs_of place entry.now) }
{
    if let Entry::Publish { publication } = entry {
        let p = publication.get();
        needs.push(Need {
            at: p.base,
            place,
            is_base: true,
        })?;
        needs.push(Need {
            at: p.version,
            place,
            is_base: false,
        })?;
    }
    Ok(())
}
