//! The sums of some values.
ghost use Rattle.std.specs.Prelude.{◌≡◌, ◌+◌, ◌<◌, ◌≤◌, length, ◌+ℤ◌, ◌*ℤ◌, All};
ghost use Rattle.segment_model.specs.{Limits.IsSmall, Computed.{sum_of, squares_of}};
ghost use Rattle.prefix_sums.specs.Sums.{IsInRange};

use segment_model::sums_law;

/// The count, the sum and the sum of squares of some values.
#[derive(Clone, Copy, Drop)]
pub struct Sums {
    /// How many values there are.
    pub count: u64,
    /// The values, added up.
    pub sum: i128,
    /// Their squares, added up.
    pub squares: i128,
}

impl Sums {
    /// The sums of no values.
    pub const NONE: Sums = Sums {
        count: 0,
        sum: 0,
        squares: 0,
    };

    // The sums with one value more.
    pub(crate) fn with_value(self, value: i64) -> Sums
        requires range { IsInRange self.count self.sum self.squares }
        requires room { self.count < 65_536 }
        requires small { IsSmall value }
        ensures count { result.count ≡ self.count + 1 }
        ensures sum { result.sum ≡ self.sum +ℤ value }
        ensures squares { result.squares ≡ self.squares +ℤ value *ℤ value }
        ensures range { IsInRange result.count result.sum result.squares }
    {
        let x = i128::from(value);
        Sums {
            count: self.count + 1,
            sum: self.sum + x,
            squares: self.squares + x * x,
        }
    }

    // The sums with more values.
    pub(crate) fn with_values(self, values: &[i64]) -> Sums
        requires range { IsInRange self.count self.sum self.squares }
        requires room { self.count + length values.now ≤ 65_536 }
        requires small { All IsSmall values.now }
        ensures count { result.count ≡ self.count + length values.now }
        ensures sum { result.sum ≡ self.sum +ℤ sum_of values.now }
        ensures squares { result.squares ≡ self.squares +ℤ squares_of values.now }
        ensures range { IsInRange result.count result.sum result.squares }
    {
        sums_law();
        let mut all = self;
        for x in values {
            all = all.with_value(*x);
        }
        all
    }
}
