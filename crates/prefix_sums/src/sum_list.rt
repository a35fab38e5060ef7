//! The sums of the first positions, as they are stored.
ghost use Rattle.std.specs.Prelude.{◌≡◌, ◌+◌, ◌^◌, ◌<◌, ◌≤◌, ◌↔◌, IsTrue, [], ◌∷◌, ◌++◌, length, take, slice_index_or, OnOk};

use crate::NoMemory;
use crate::sums::Sums;
use std::alloc::Global;
use std::marker::Model;

// The sum and the sum of squares of some values.
#[derive(Clone, Copy, Drop)]
pub struct Totals {
    pub sum: i128,
    pub squares: i128,
}

// A list of sums. The counts stand apart, since each would take as much room as a sum beside it.
#[derive(Drop)]
pub struct SumList {
    counts: Vec<u32>,
    totals: Vec<Totals>,
}

impl Model for SumList {
    ghost use Rattle.std.specs.Prelude.{◌≡◌, ◌-◌, min, length, vec_len, vec_capacity};
    ghost use Rattle.prefix_sums.specs.Lists.{Listed, sums_in};

    ghost Value = { Listed };

    ghost view = { λ l. record {
      items = sums_in l.counts.items l.totals.items;
      spare = min (vec_capacity l.counts - vec_len l.counts)
          (vec_capacity l.totals - vec_len l.totals);
    } };

    ghost invariant = { λ l. length l.counts.items ≡ length l.totals.items };
}

impl SumList {
    // No sums.
    pub fn new(alloc: Global) -> SumList
        ensures { result.items ≡ [] }
    {
        SumList {
            counts: Vec::new(alloc),
            totals: Vec::new(alloc),
        }
    }

    // Makes the spare at least n; changes no sums.
    pub fn reserve(&mut self, n: usize) -> Result<(), NoMemory>
        ensures items { self.new.items ≡ self.old.items }
        ensures spare { OnOk result (n ≤ self.new.spare) }
        ensures kept { self.old.spare ≤ self.new.spare }
    {
        self.counts.reserve(n)?;
        self.totals.reserve(n)?;
        Ok(())
    }

    // Adds sums at the end.
    pub fn push_reserved(&mut self, sums: Sums)
        requires spare { 0 < self.old.spare }
        requires few { sums.count < 2 ^ 32 }
        ensures items { self.new.items ≡ self.old.items ++ sums ∷ [] }
        ensures spare { self.new.spare + 1 ≡ self.old.spare }
    {
        self.counts.push_reserved(sums.count as u32);
        self.totals.push_reserved(Totals {
            sum: sums.sum,
            squares: sums.squares,
        });
    }

    // Keeps the first k sums alone.
    pub fn truncate(&mut self, k: usize)
        ensures items { self.new.items ≡ take k self.old.items }
        ensures spare { self.old.spare ≤ self.new.spare }
    {
        self.counts.truncate(k);
        self.totals.truncate(k);
    }

    pub fn len(&self) -> usize
        ensures { result ≡ length self.now.items }
    {
        self.totals.len()
    }

    pub fn is_empty(&self) -> bool
        ensures { IsTrue result ↔ (self.now.items ≡ []) }
    {
        self.len() == 0
    }

    // The sums at index i.
    pub fn at(&self, i: usize) -> Sums
        requires { i < length self.now.items }
        ensures { (d : _) → result ≡ slice_index_or self.now.items i d }
    {
        let totals = self.totals[i];
        Sums {
            count: u64::from(self.counts[i]),
            sum: totals.sum,
            squares: totals.squares,
        }
    }
}
