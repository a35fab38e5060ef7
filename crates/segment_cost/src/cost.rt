//! What a cost of segments is.
ghost use Rattle.std.specs.Prelude.{◌≡◌, ℕ, ℤ, ◌<◌, ◌≤◌, ◌+◌, List, [], ◌∷◌, ◌++◌, length, take, OnOk};
ghost use Rattle.segment_model.specs.Values.{AreWithinLimits, values_between, cost_between, MergesValues, CostsInRange};

use crate::NoMemory;
use std::alloc::Global;

/// What each segment of some positions costs, and its centre.
///
/// Contracts see the positions, each as the list of its values, and the spare: room for so many values more. A
/// segment's cost and its centre are functions of its values alone, whatever stands before or behind it. Two
/// neighbouring segments cost together at most what their union costs, and within the limits a cost is from 0 to 10^37.
pub trait Cost: Sized {
    ghost positions: { Self → List (List ℤ) };

    ghost spare: { Self → ℕ };

    ghost cost_of: { List ℤ → ℤ };

    ghost centre_of: { List ℤ → ℤ };

    /// No positions.
    fn fresh(alloc: Global) -> Self
        ensures { positions result ≡ [] };

    /// Makes the spare at least n; changes no position.
    fn reserve(&mut self, n: usize) -> Result<(), NoMemory>
        ensures positions { positions self.new ≡ positions self.old }
        ensures spare { OnOk result (n ≤ spare self.new) }
        ensures kept { spare self.old ≤ spare self.new };

    /// Adds a position at the end.
    fn push(&mut self, values: &[i64])
        requires limits { AreWithinLimits (positions self.old ++ values.now ∷ []) }
        requires spare { length values.now ≤ spare self.old }
        ensures positions { positions self.new ≡ positions self.old ++ values.now ∷ [] }
        ensures spare { spare self.old ≤ spare self.new + length values.now };

    /// Keeps the first k positions alone.
    fn cut_back(&mut self, k: usize)
        requires { k ≤ length (positions self.old) }
        ensures positions { positions self.new ≡ take k (positions self.old) }
        ensures spare { spare self.old ≤ spare self.new };

    /// How many positions there are.
    fn len(&self) -> usize
        ensures { result ≡ length (positions self.now) };

    /// What the segment from place s to place t costs.
    fn cost(&self, s: usize, t: usize) -> i128
        requires rising { s < t }
        requires placed { t ≤ length (positions self.now) }
        ensures { result ≡ cost_between cost_of (positions self.now) s t };

    /// The centre of the segment from place s to place t.
    fn centre(&self, s: usize, t: usize) -> i64
        requires rising { s < t }
        requires placed { t ≤ length (positions self.now) }
        ensures { result ≡ centre_of (values_between (positions self.now) s t) };

    ghost merging: { MergesValues cost_of };

    ghost in_range: { CostsInRange cost_of };
}
