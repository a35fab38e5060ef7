//! Sources in memory that never fail.
ghost use Rattle.std.specs.Prelude.{◌≡◌, Some, IfOk, IsOkAnd};
ghost use Rattle.track_outside.specs.Memory.{Moves};

use crate::NoMemory;
use crate::source::{Failed, Source};
use std::alloc::Global;
use std::marker::Model;

/// A source of bytes in memory that never fails. It tells its bytes; contracts see it as those that are left.
#[derive(Drop)]
pub struct SureSource {
    bytes: Vec<u8>,
    at: usize,
}

impl Model for SureSource {
    ghost use Rattle.std.specs.Prelude.{ℕ, ◌≤◌, List, length, drop};

    ghost Value = { List ℕ };

    ghost view = { λ s. drop s.at s.bytes.items };

    ghost invariant = { λ s. s.at ≤ length s.bytes.items };
}

impl SureSource {
    /// A source of these bytes. Linear in their number.
    pub fn new(alloc: Global, bytes: &[u8]) -> Result<SureSource, NoMemory>
        ensures made { IfOk result (λ source. source ≡ bytes.now) }
    {
        Ok(SureSource {
            bytes: Vec::from_slice(alloc, bytes)?,
            at: 0,
        })
    }
}

impl Source for SureSource {
    ghost left = { λ s. Some s };

    ghost faults = { λ _. 0 };

    /// Moves as many bytes as there are, and at most as the buffer holds; into an empty one it moves none. Linear in the
    /// bytes moved; takes no memory.
    fn read(&mut self, buf: &mut [u8]) -> Result<usize, Failed>
        ensures moves { IsOkAnd result (Moves self.old self.new buf.old buf.new) }
    {
        let count = buf.len().min(self.bytes.len() - self.at);
        let end = self.at + count;
        buf[..count].copy_from_slice(&self.bytes[self.at..end]);
        self.at = end;
        Ok(count)
    }
}
