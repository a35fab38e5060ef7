//! Why reading ends early.
use std::alloc::AllocError;

/// Why reading ends early.
#[derive(Clone, Copy, Debug, PartialEq, Eq)]
pub enum ReadStop {
    /// The source failed.
    ReadFault,
    /// The script ends inside a body whose request line begins at this place, or the line that begins there is too long.
    CutOff(u64),
    /// It takes a byte past the first 2^30, and there is one.
    InputTooLong,
    /// There was no memory for the request.
    NoMemory,
}

impl From<AllocError> for ReadStop {
    ghost use Rattle.std.specs.Prelude.{◌≡◌};
    ghost use Rattle.request_reader.specs.declared.stop.ReadStop.TheVariants as stop;

    ghost from_gives = { λ _ e. e ≡ stop.NoMemory };

    fn from(_: AllocError) -> ReadStop {
        ReadStop::NoMemory
    }
}
