//! Sums of the first positions, and of a segment by two of them.
ghost use Rattle.std.specs.Prelude.{◌≡◌, ℕ, ◌+◌, ◌<◌, ◌≤◌, ◌↔◌, IsTrue, pos, slice_index_or, [], ◌∷◌, ◌++◌, length, take, OnOk};
ghost use Rattle.segment_model.specs.Values.{values_between, AreWithinLimits};
ghost use Rattle.prefix_sums.specs.Sums.{AreSums};

use crate::NoMemory;
use crate::seen::{Change, Seen};
use crate::sum_list::SumList;
use crate::sums::Sums;
use segment_model::{sums_law, values_law};
use std::alloc::Global;
use std::marker::Model;

/// The sums of the values of some positions, for each segment of them in constant time.
///
/// Contracts see the positions, each as the list of its values, and the spare: how many more there is room for. The
/// type keeps the limits: at most 16,384 positions and 65,536 values of magnitudes up to 10^16, no position without a
/// value.
#[derive(Drop)]
pub struct PrefixSums {
    // At index i the sums of the first i + 1 positions.
    sums: SumList,
    seen: Seen,
}

impl Model for PrefixSums {
    ghost use Rattle.prefix_sums.specs.Prefixes.{Summed, ArePrefixSums};

    ghost Value = { Summed };

    ghost view = { λ p. record { positions = p.seen.positions; spare = p.sums.spare } };

    ghost invariant = { λ p. ArePrefixSums p.seen.positions p.sums.items };
}

impl PrefixSums {
    /// No positions.
    pub fn new(alloc: Global) -> PrefixSums
        ensures { result.positions ≡ [] }
    {
        PrefixSums {
            sums: SumList::new(alloc),
            seen: Seen::none(),
        }
    }

    /// Makes the spare at least n; changes no position.
    pub fn reserve(&mut self, n: usize) -> Result<(), NoMemory>
        ensures positions { self.new.positions ≡ self.old.positions }
        ensures spare { OnOk result (n ≤ self.new.spare) }
        ensures kept { self.old.spare ≤ self.new.spare }
    {
        self.sums.reserve(n)?;
        Ok(())
    }

    /// Adds a position at the end. Linear in its values.
    pub fn push(&mut self, values: &[i64])
        requires limits { AreWithinLimits (self.old.positions ++ values.now ∷ []) }
        requires spare { 0 < self.old.spare }
        ensures positions { self.new.positions ≡ self.old.positions ++ values.now ∷ [] }
        ensures spare { self.new.spare + 1 ≡ self.old.spare }
    {
        values_law();
        sums_law();
        let last = self.sums.len();
        let sums = up_to(&self.sums, last).with_values(values);
        self.sums.push_reserved(sums);
        self.seen = self.seen.after(&Change::Push(values));
    }

    /// Keeps the first k positions alone.
    pub fn cut_back(&mut self, k: usize)
        requires { k ≤ length self.old.positions }
        ensures positions { self.new.positions ≡ take k self.old.positions }
        ensures spare { self.old.spare ≤ self.new.spare }
    {
        values_law();
        self.sums.truncate(k);
        self.seen = self.seen.after(&Change::CutBack(k));
    }

    /// How many positions there are.
    pub fn len(&self) -> usize
        ensures { result ≡ length self.now.positions }
    {
        self.sums.len()
    }

    /// Whether there are no positions.
    pub fn is_empty(&self) -> bool
        ensures { IsTrue result ↔ (self.now.positions ≡ []) }
    {
        self.sums.is_empty()
    }

    /// Says what the type keeps; does nothing.
    pub fn limits(&self)
        ensures { AreWithinLimits self.now.positions }
    {
        let _ = &self.sums;
    }

    /// The count, the sum and the sum of squares of the values of the segment from place s to place t. Constant time.
    pub fn part(&self, s: usize, t: usize) -> Sums
        requires rising { s ≤ t }
        requires placed { t ≤ length self.now.positions }
        ensures { AreSums (values_between self.now.positions s t)
            result.count result.sum result.squares }
    {
        values_law();
        sums_law();
        let to = up_to(&self.sums, t);
        let from = up_to(&self.sums, s);
        Sums {
            count: to.count - from.count,
            sum: to.sum - from.sum,
            squares: to.squares - from.squares,
        }
    }
}

// The sums of the first t positions, of the sums of all first positions but none.
fn up_to(sums: &SumList, t: usize) -> Sums
    requires { t ≤ length sums.now.items }
    ensures none { t ≡ 0 → result ≡ record { count = 0; sum = pos 0; squares = pos 0 } }
    ensures some { (i : ℕ) (d : _) → t ≡ i + 1 → result ≡ slice_index_or sums.now.items i d }
{
    if t == 0 { Sums::NONE } else { sums.at(t - 1) }
}
