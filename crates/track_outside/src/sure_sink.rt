//! A sink that takes all and keeps nothing.
ghost use Rattle.std.specs.Prelude.{◌≡◌, ◌<◌, [], Ok, None, length};

use crate::sink::Sink;
use crate::source::Failed;

/// A sink that never fails. It takes every piece whole, keeps none of it, and does not tell its bytes.
#[derive(Clone, Copy, Debug, Drop)]
pub struct SureSink;

impl SureSink {
    /// A sink.
    pub fn new() -> SureSink {
        SureSink
    }
}

impl Sink for SureSink {
    ghost taken = { λ _. None };

    ghost faults = { λ _. 0 };

    ghost name = { λ _. [] };

    /// Takes the whole piece.
    fn write(&mut self, bytes: &[u8]) -> Result<usize, Failed>
        requires some { 0 < length bytes.now }
        ensures whole { result ≡ Ok (length bytes.now) }
    {
        Ok(bytes.len())
    }
}
