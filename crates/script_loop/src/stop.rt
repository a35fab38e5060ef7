//! Why the answering of a script ends early.
ghost use Rattle.std.specs.Prelude.{◌≡◌};
ghost use Rattle.script_loop.specs.Stops.{stop_of};

use request_reader::ReadStop;

/// Why the answering of a script ends early.
#[derive(Clone, Copy, Debug, PartialEq, Eq)]
pub enum Stop {
    /// The source failed.
    ReadFault,
    /// The sink failed.
    WriteFault,
    /// The script ends inside a body whose request line begins at this place, or the line that begins there is too long.
    CutOff(u64),
    /// It takes a byte past the first 2^30, and there is one.
    InputTooLong,
    /// There was no memory.
    NoMemory,
}

impl From<ReadStop> for Stop {
    ghost from_gives = { λ why stop. stop ≡ stop_of why };

    fn from(why: ReadStop) -> Stop {
        match why {
            ReadStop::ReadFault => Stop::ReadFault,
            ReadStop::CutOff(offset) => Stop::CutOff(offset),
            ReadStop::InputTooLong => Stop::InputTooLong,
            ReadStop::NoMemory => Stop::NoMemory,
        }
    }
}
