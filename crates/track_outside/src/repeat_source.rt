//! Sources that give a pattern many times.
ghost use Rattle.std.specs.{Prelude.{◌≡◌, ◌<◌, List, [], Some, length, take, IfOk, IsOk}, List.repeat, Io.ReadsAtMost, Io.KnownBytes.prepend_known};

use crate::NoMemory;
use crate::source::{Failed, Source};
use std::alloc::Global;
use std::marker::Model;

/// A source that gives a pattern of bytes so many times, and never fails. It tells its bytes; contracts see it as those
/// that are left.
#[derive(Drop)]
pub struct RepeatSource {
    pattern: Vec<u8>,
    // how often the pattern has not come whole yet
    turns: u64,
    // how much of it has come in this turn
    at: usize,
}

impl Model for RepeatSource {
    ghost use Rattle.std.specs.{Prelude.{ℕ, ◌<◌, List, length, drop}, List.repeat};

    ghost Value = { List ℕ };

    ghost view = { λ s. drop s.at (repeat s.turns s.pattern.items) };

    ghost invariant = { λ s. 0 < s.turns → s.at < length s.pattern.items };
}

impl RepeatSource {
    /// A source of this pattern, so many times. It keeps the pattern once: linear in the pattern's length.
    pub fn new(alloc: Global, pattern: &[u8], times: u64) -> Result<RepeatSource, NoMemory>
        ensures made { IfOk result (λ source. source ≡ repeat times pattern.now) }
    {
        Ok(RepeatSource {
            pattern: Vec::from_slice(alloc, pattern)?,
            turns: turns_of(pattern, times),
            at: 0,
        })
    }
}

// How often a pattern comes: an empty one not at all.
fn turns_of(pattern: &[u8], times: u64) -> u64
    ensures same { repeat result pattern.now ≡ repeat times pattern.now }
    ensures some { 0 < result → 0 < length pattern.now }
{
    if pattern.is_empty() {
        return 0;
    }
    times
}

impl Source for RepeatSource {
    ghost left = { λ s. Some s };

    ghost faults = { λ _. 0 };

    /// Moves what is left of the pattern in this turn, and at most as the buffer holds. Linear in the bytes moved; takes no
    /// memory.
    fn read(&mut self, buf: &mut [u8]) -> Result<usize, Failed>
        ensures sure { IsOk result }
        ensures count { ReadsAtMost result buf.new }
        ensures bytes { IfOk result (λ n.
            Some self.old ≡ prepend_known (take n buf.new) (Some self.new)) }
        ensures end { 0 < length buf.old → IfOk result (λ n. n ≡ 0 → self.new ≡ []) }
    {
        if self.turns == 0 {
            return Ok(0);
        }
        let count = buf.len().min(self.pattern.len() - self.at);
        let end = self.at + count;
        buf[..count].copy_from_slice(&self.pattern[self.at..end]);
        if end < self.pattern.len() {
            self.at = end;
        } else {
            self.turns -= 1;
            self.at = 0;
        }
        Ok(count)
    }
}
