//! Two numbers with some values between them.
ghost use Rattle.std.specs.Prelude.{All};
ghost use Rattle.segment_model.specs.Limits.{IsSmall};

// Two numbers: the least and the greatest of some values.
#[derive(Clone, Copy, Drop)]
pub struct Ends {
    pub least: i64,
    pub greatest: i64,
}

impl Ends {
    ghost use Rattle.absolute_cost.specs.Between.{AreSmall, AreWider, IsBetween, HaveTaken};

    // With one value more between them.
    pub fn with_value(self, x: i64) -> Ends
        requires small { AreSmall self }
        requires x_small { IsSmall x }
        ensures small { AreSmall result }
        ensures wider { AreWider self result }
        ensures between { IsBetween result x }
    {
        Ends {
            least: self.least.min(x),
            greatest: self.greatest.max(x),
        }
    }

    // With some values more.
    pub fn with_values(self, values: &[i64]) -> Ends
        requires small { AreSmall self }
        requires all_small { All IsSmall values.now }
        ensures { HaveTaken values.now self result }
    {
        let mut ends = self;
        for x in values {
            ends = ends.with_value(*x);
        }
        ends
    }
}
