//! Why reading stops.
ghost use Rattle.std.specs.Prelude.{◌≡◌};
ghost use Rattle.line_pieces.specs.declared.stop.Stop.{Stop};

use std::alloc::AllocError;

/// Why a line is refused.
#[derive(Clone, Copy, Debug, PartialEq, Eq)]
pub enum Refusal {
    /// It says nothing that a line may say there.
    Bad,
    /// It would pass a limit of what the lines give.
    Full,
}

/// Why reading of the lines of an input ends early.
#[derive(Clone, Copy, Debug, PartialEq, Eq)]
pub enum Stop {
    /// The input failed.
    Fault,
    /// There is a byte past the first 2^30, which are the most.
    TooLong,
    /// The line of this number, counted from 1, is refused.
    Refused(Refusal, u64),
    /// There was no memory.
    NoMemory,
}

impl From<AllocError> for Stop {
    ghost from_gives = { λ _ stop. stop ≡ Stop.NoMemory };

    fn from(_: AllocError) -> Stop {
        Stop::NoMemory
    }
}
