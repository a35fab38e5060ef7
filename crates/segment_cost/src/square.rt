//! The cost about a whole number.
ghost use Rattle.std.specs.{Prelude.{◌≡◌, ℤ, ◌^◌, ◌<◌, ◌≤◌, List, length, IfOk, unsigned_abs, pos, ◌<ℤ◌, ◌-ℤ◌, ◌*ℤ◌}, Int.int_div_euclid};
ghost use Rattle.segment_model.specs.{Segments.IsLeastSum, Computed.{sum_of, centre_by_division, least_sum_of}, Values.{AreWithinLimits, values_by_position}};
ghost use Rattle.prefix_sums.specs.Sums.{IsInRange, AreSums};

use crate::NoMemory;
use crate::cost::Cost;
use point_list::{FrozenPoints, Points};
use prefix_sums::{PrefixSums, Sums};
use segment_model::{centre_law, least_sum_law, squares_law, sums_law, values_law};
use std::alloc::Global;
use std::marker::Model;

/// The least sum of squares about a whole number, and the smallest such number, each in constant time.
///
/// Contracts see the positions, each as the list of its values, and the spare.
#[derive(Drop)]
pub struct Square {
    sums: PrefixSums,
}

impl Model for Square {
    ghost use Rattle.prefix_sums.specs.Prefixes.{Summed};

    ghost Value = { Summed };

    ghost view = { λ s. s.sums };
}

impl Square {
    /// The costs of the segments of some points. Linear in their values.
    pub fn of_points(alloc: Global, points: &Points) -> Result<Square, NoMemory>
        ensures { IfOk result (λ made. made.positions ≡ values_by_position points.now) }
    {
        points.limits();
        let mut square = Square::fresh(alloc);
        for i in 0..points.len() {
            let values = points.values(i);
            square.reserve(values.len())?;
            square.push(values);
        }
        Ok(square)
    }

    /// As [`Square::of_points`], of positions that don't change any more.
    pub fn of_frozen(alloc: Global, points: &FrozenPoints) -> Result<Square, NoMemory>
        ensures { IfOk result (λ made. made.positions ≡ values_by_position points.now) }
    {
        points.limits();
        let mut square = Square::fresh(alloc);
        for i in 0..points.len() {
            let values = points.values(i);
            square.reserve(values.len())?;
            square.push(values);
        }
        Ok(square)
    }

    /// Says what the type keeps; does nothing.
    pub fn limits(&self)
        ensures { AreWithinLimits self.now.positions }
    {
        self.sums.limits();
    }
}

impl Cost for Square {
    ghost use Rattle.std.specs.Prelude.{length};
    ghost use Rattle.segment_model.{specs.Computed.{sum_of, centre_by_division, least_sum_of}, proofs.LeastSums.{least_sums-merge, least_sums-range}};

    ghost positions = { λ s. s.positions };

    ghost spare = { λ s. s.spare };

    ghost cost_of = { least_sum_of };

    ghost centre_of = { λ xs. centre_by_division (length xs) (sum_of xs) };

    fn fresh(alloc: Global) -> Square {
        Square {
            sums: PrefixSums::new(alloc),
        }
    }

    fn reserve(&mut self, n: usize) -> Result<(), NoMemory> {
        self.sums.reserve(n)?;
        Ok(())
    }

    fn push(&mut self, values: &[i64]) {
        self.sums.push(values);
    }

    fn cut_back(&mut self, k: usize) {
        self.sums.cut_back(k);
    }

    fn len(&self) -> usize {
        self.sums.len()
    }

    fn cost(&self, s: usize, t: usize) -> i128 {
        values_law();
        sums_law();
        squares_law();
        least_sum_law();
        self.sums.limits();
        least_sum(self.sums.part(s, t))
    }

    fn centre(&self, s: usize, t: usize) -> i64 {
        values_law();
        sums_law();
        self.sums.limits();
        centre(self.sums.part(s, t)) as i64
    }

    ghost merging = { least_sums-merge };

    ghost in_range = { least_sums-range };
}

// The centre of the values, of which there is one at least: one division.
fn centre(sums: Sums) -> i128
    requires some { 0 < sums.count }
    requires range { IsInRange sums.count sums.sum sums.squares }
    ensures division { result ≡ centre_by_division sums.count sums.sum }
    ensures small { unsigned_abs result ≤ 10 ^ 16 }
{
    centre_law();
    let n = i128::from(sums.count);
    rounded_down(2 * sums.sum + n - 1, 2 * n)
}

// The quotient rounded down, by a division of 64 bits where both numbers fit.
fn rounded_down(number: i128, divisor: i128) -> i128
    requires { pos 0 <ℤ divisor }
    ensures { result ≡ int_div_euclid number divisor }
{
    let Ok(small) = i64::try_from(number) else {
        return number.div_euclid(divisor);
    };
    let Ok(by) = i64::try_from(divisor) else {
        return number.div_euclid(divisor);
    };
    i128::from(small.div_euclid(by))
}

// The least sum of squares of the values about a whole number.
fn least_sum(sums: Sums) -> i128
    requires some { 0 < sums.count }
    requires range { IsInRange sums.count sums.sum sums.squares }
    ensures { (xs : List ℤ) → AreSums xs sums.count sums.sum sums.squares → IsLeastSum xs result }
{
    sums_law();
    centre_law();
    let c = centre(sums);
    sums.squares - c * twice_less(sums, c)
}

// Twice the sum, less the count times a number.
fn twice_less(sums: Sums, c: i128) -> i128
    requires range { IsInRange sums.count sums.sum sums.squares }
    requires small { unsigned_abs c ≤ 10 ^ 16 }
    ensures { result ≡ pos 2 *ℤ sums.sum -ℤ pos sums.count *ℤ c }
{
    2 * sums.sum - i128::from(sums.count) * c
}
