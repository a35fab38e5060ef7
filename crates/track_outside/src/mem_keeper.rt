//! A keeper in memory.
ghost use Rattle.std.specs.Prelude.{◌≡◌, ◌-◌, ◌≤◌, Some, length, slice_get, IfOk};
ghost use Rattle.track_outside.specs.Kept.{bytes_of, Answers, CountsRows, named, extended};

use crate::NoMemory;
use crate::fault_count::PlannedFaults;
use crate::keeper::Keeper;
use crate::out_error::OutError;
use crate::room::push_within;
use crate::source::Failed;
use std::alloc::Global;
use std::marker::Model;

/// A keeper of rows in memory, of which some calls fail. It tells its rows and the names that it was started with, and
/// keeps its rows whatever the name.
#[derive(Drop)]
pub struct MemKeeper {
    alloc: Global,
    rows: Vec<Vec<u8>>,
    names: Vec<Vec<u8>>,
    plan: PlannedFaults,
}

impl Model for MemKeeper {
    ghost use Rattle.track_outside.specs.Kept.{Store, bytes_of};

    ghost Value = { Store };

    ghost view = { λ s. record {
      kept = bytes_of s.rows.items;
      started = bytes_of s.names.items;
      fails = s.plan.fails.items;
      calls = s.plan.calls;
      faults = s.plan.faults;
    } };
}

impl MemKeeper {
    ghost use Rattle.track_outside.specs.Kept.{new_store};

    /// An empty keeper, whose calls with these numbers, counted from 1, fail. Linear in the length of `fails`.
    pub fn new(alloc: Global, fails: &[u64]) -> Result<MemKeeper, NoMemory>
        ensures made { IfOk result (λ keeper. keeper ≡ new_store fails.now) }
    {
        Ok(MemKeeper {
            alloc,
            rows: Vec::new(alloc),
            names: Vec::new(alloc),
            plan: PlannedFaults::new(alloc, fails)?,
        })
    }
}

impl Keeper for MemKeeper {
    ghost kept = { λ s. Some s.kept };

    ghost started = { λ s. Some s.started };

    ghost faults = { λ s. s.faults };

    fn start(&mut self, alloc: Global, name: &str) -> Result<(), OutError>
        ensures answers { Answers self.old self.new (named name.now self.old)
            (named name.now self.old) result }
        ensures counts { self.old.faults ≤ self.new.faults }
    {
        let name = Vec::from_slice(alloc, name.as_bytes())?;
        self.names.reserve(1)?;
        push_within(&mut self.names, name);
        self.plan.next_call()?;
        Ok(())
    }

    fn count(&mut self) -> Result<u64, Failed>
        ensures answers { CountsRows self.old self.new result }
        ensures counts { self.old.faults ≤ self.new.faults }
    {
        self.plan.next_call()?;
        Ok(self.rows.len() as u64)
    }

    fn row(&mut self, alloc: Global, k: u64) -> Result<Vec<u8>, OutError>
        requires { (1 ≤ k) × (k ≤ length self.old.kept) }
        ensures row { IfOk result (λ bytes. slice_get self.old.kept (k - 1) ≡ Some bytes.items) }
        ensures answers { Answers self.old self.new self.old self.old result }
        ensures counts { self.old.faults ≤ self.new.faults }
    {
        let row = Vec::from_slice(alloc, &self.rows[(k - 1) as usize])?;
        self.plan.next_call()?;
        Ok(row)
    }

    fn append(&mut self, alloc: Global, rows: &[Vec<u8>]) -> Result<(), OutError>
        ensures answers { Answers self.old self.new self.old
            (extended (bytes_of rows.now) self.old) result }
        ensures counts { self.old.faults ≤ self.new.faults }
    {
        let mut copies = copied_rows(alloc, rows)?;
        self.rows.reserve(copies.len())?;
        self.plan.next_call()?;
        self.rows.append(&mut copies)?;
        Ok(())
    }
}

// Equal rows of their own.
fn copied_rows(alloc: Global, rows: &[Vec<u8>]) -> Result<Vec<Vec<u8>>, NoMemory>
    ensures { IfOk result (λ copies. bytes_of copies.items ≡ bytes_of rows.now) }
{
    let mut copies = Vec::with_capacity(alloc, rows.len())?;
    for row in rows {
        copies.push(Vec::from_slice(alloc, row)?)?;
    }
    Ok(copies)
}
