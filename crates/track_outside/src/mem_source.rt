//! Sources in memory.
ghost use Rattle.std.specs.Prelude.{◌≡◌, ◌≤◌, Some, IfOk};
ghost use Rattle.track_outside.specs.Memory.{MemReads};

use crate::NoMemory;
use crate::fault_count::PlannedFaults;
use crate::source::{Failed, Source};
use crate::sure_source::SureSource;
use std::alloc::Global;
use std::marker::Model;

/// A source of bytes in memory, of which some calls fail. It tells its bytes.
#[derive(Drop)]
pub struct MemSource {
    source: SureSource,
    plan: PlannedFaults,
}

impl Model for MemSource {
    ghost use Rattle.track_outside.specs.Memory.{Input};

    ghost Value = { Input };

    ghost view = { λ s. record {
      left = s.source;
      fails = s.plan.fails.items;
      calls = s.plan.calls;
      faults = s.plan.faults;
    } };
}

impl MemSource {
    ghost use Rattle.track_outside.specs.Memory.{new_input};

    /// A source of these bytes, whose calls with these numbers, counted from 1, fail. Linear in both lengths.
    pub fn new(alloc: Global, bytes: &[u8], fails: &[u64]) -> Result<MemSource, NoMemory>
        ensures made { IfOk result (λ source. source ≡ new_input bytes.now fails.now) }
    {
        Ok(MemSource {
            source: SureSource::new(alloc, bytes)?,
            plan: PlannedFaults::new(alloc, fails)?,
        })
    }
}

impl MemSource {
    // How often it failed.
    pub(crate) fn faults(&self) -> u64
        ensures { result ≡ self.now.faults }
    {
        self.plan.faults
    }
}

impl Source for MemSource {
    ghost left = { λ s. Some s.left };

    ghost faults = { λ s. s.faults };

    /// Moves as many bytes as there are, and at most as the buffer holds; into an empty one it moves none. It fails, and
    /// moves nothing, exactly where the call's number is planned to fail. Linear in the bytes moved and in the plan; takes
    /// no memory.
    fn read(&mut self, buf: &mut [u8]) -> Result<usize, Failed>
        ensures reads { MemReads self.old self.new buf.old buf.new result }
        ensures counts { self.old.faults ≤ self.new.faults }
    {
        self.plan.next_call()?;
        self.source.read(buf)
    }
}
