//! The cost by distances.
ghost use Rattle.std.specs.Prelude.{◌≡◌, ◌+◌, ◌<◌, ◌≤◌, length, All};
ghost use Rattle.segment_model.specs.{Limits.IsSmall, Values.{joined, values_between}};

use crate::NoMemory;
use crate::blocks::{BLOCK, add_blocks, append};
use crate::middle::{middle, sum_of_distances};
use crate::pieces::{Pieces, cut};
use prefix_sums::PrefixSums;
use segment_cost::Cost;
use segment_model::values_law;
use std::alloc::Global;
use std::marker::Model;

/// The least sum of distances from a whole number, and the smallest such number.
///
/// Contracts see the positions, each as the list of its values, and the spare. A cost of n values takes O(n + b n / 32)
/// time, and a centre O(b n / 32), where b is how many bits the distance of their least and greatest value has, of which
/// there are 55 at most. A push is linear in its values: they are put in order 32 at a time.
#[derive(Drop)]
pub struct Absolute {
    // They count the values of the first positions.
    sums: PrefixSums,
    values: Vec<i64>,
    // Their first blocks, each in order.
    sorted: Vec<i64>,
}

impl Model for Absolute {
    ghost use Rattle.std.specs.Prelude.{◌≡◌, ◌-◌, min, vec_len, vec_capacity};
    ghost use Rattle.segment_model.specs.Values.{joined};
    ghost use Rattle.prefix_sums.specs.Prefixes.{Summed};
    ghost use Rattle.absolute_cost.specs.Blocks.{AreBlocksOf};

    ghost Value = { Summed };

    ghost view = { λ a. record {
      positions = a.sums.positions;
      spare = min a.sums.spare (vec_capacity a.values - vec_len a.values);
    } };

    ghost invariant = { λ a. (a.values.items ≡ joined a.sums.positions)
        × AreBlocksOf a.values.items a.sorted.items };
}

impl Absolute {
    ghost use Rattle.absolute_cost.specs.Blocks.{AreBlocks, HaveSameSums, all_of};

    // The values of the segment from place s to place t.
    fn segment(&self, s: usize, t: usize) -> Pieces<'_>
        requires rising { s < t }
        requires placed { t ≤ length self.now.positions }
        ensures values { HaveSameSums (values_between self.now.positions s t)
            (all_of result.head.now result.whole.now result.tail.now) }
        ensures blocks { AreBlocks result.whole.now }
        ensures some { 0 < length (all_of result.head.now result.whole.now result.tail.now) }
        ensures few { length (all_of result.head.now result.whole.now result.tail.now) ≤ 65_536 }
        ensures small { All IsSmall (all_of result.head.now result.whole.now result.tail.now) }
    {
        values_law();
        self.sums.limits();
        let from = self.sums.part(0, s).count as usize;
        let to = self.sums.part(0, t).count as usize;
        cut(&self.values, &self.sorted, from, to)
    }
}

impl Cost for Absolute {
    ghost use Rattle.distance_model.{specs.Distances.{middle_of, least_distances_of}, proofs.Middles.{distances-merge, distances-range}};

    ghost positions = { λ a. a.positions };

    ghost spare = { λ a. a.spare };

    ghost cost_of = { least_distances_of };

    ghost centre_of = { middle_of };

    fn fresh(alloc: Global) -> Absolute {
        Absolute {
            sums: PrefixSums::new(alloc),
            values: Vec::new(alloc),
            sorted: Vec::new(alloc),
        }
    }

    fn reserve(&mut self, n: usize) -> Result<(), NoMemory> {
        self.sums.reserve(n)?;
        self.values.reserve(n)?;
        let missing = (self.values.len() - self.sorted.len()).saturating_add(n);
        self.sorted.reserve(missing)?;
        Ok(())
    }

    fn push(&mut self, values: &[i64]) {
        self.sums.push(values);
        append(&mut self.values, values);
        add_blocks(&mut self.sorted, &self.values);
    }

    fn cut_back(&mut self, k: usize) {
        values_law();
        let count = self.sums.part(0, k).count as usize;
        self.values.truncate(count);
        self.sorted.truncate(count / BLOCK * BLOCK);
        self.sums.cut_back(k);
    }

    fn len(&self) -> usize {
        self.sums.len()
    }

    fn cost(&self, s: usize, t: usize) -> i128 {
        let values = self.segment(s, t);
        sum_of_distances(values, middle(values)) as i128
    }

    fn centre(&self, s: usize, t: usize) -> i64 {
        middle(self.segment(s, t))
    }

    ghost merging = { distances-merge };

    ghost in_range = { distances-range };
}
