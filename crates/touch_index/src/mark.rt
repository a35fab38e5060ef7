//! What is kept of a series.
ghost use Rattle.std.specs.Prelude.{◌≡◌};
ghost use Rattle.touch_index.specs.Marks.{touched_mark};

/// Who works on a series.
#[derive(Clone, Copy, Debug, PartialEq, Eq)]
pub enum Claim {
    /// Nobody.
    Free,
    /// Somebody took it.
    Taken,
    /// A limit refused its publication, and would refuse it again as the series stands.
    Refused,
}

/// What is kept of a series.
#[derive(Clone, Copy, Debug, PartialEq, Eq)]
pub struct Mark {
    /// The step of the last entry that touched it.
    pub touched: u64,
    /// Who works on it.
    pub claim: Claim,
}

impl Mark {
    // The mark of a series once it was touched in this step: what a limit refused is free again.
    pub(crate) fn touched(before: Option<Mark>, step: u64) -> Mark
        ensures { result ≡ touched_mark step before }
    {
        let Some(before) = before else {
            return Mark {
                touched: step,
                claim: Claim::Free,
            };
        };
        match before.claim {
            Claim::Taken => Mark {
                touched: step,
                claim: Claim::Taken,
            },
            _ => Mark {
                touched: step,
                claim: Claim::Free,
            },
        }
    }
}
