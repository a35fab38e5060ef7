//! Sinks in memory.
ghost use Rattle.std.specs.Prelude.{◌≡◌, ◌≤◌, [], Some, IfOk};
ghost use Rattle.track_outside.specs.Memory.{MemWrites};

use crate::NoMemory;
use crate::fault_count::{PlannedFaults, count_fault};
use crate::sink::Sink;
use crate::source::Failed;
use std::alloc::Global;
use std::marker::Model;

/// A sink in memory with room for a number of bytes, of which some calls fail. It tells its bytes.
#[derive(Drop)]
pub struct MemSink {
    name: Vec<u8>,
    bytes: Vec<u8>,
    room: usize,
    plan: PlannedFaults,
}

impl Model for MemSink {
    ghost use Rattle.std.specs.Prelude.{◌≤◌, vec_capacity};
    ghost use Rattle.track_outside.specs.Memory.{Output};

    ghost Value = { Output };

    ghost view = { λ s. record {
      name = s.name.items;
      taken = s.bytes.items;
      room = s.room;
      fails = s.plan.fails.items;
      calls = s.plan.calls;
      faults = s.plan.faults;
    } };

    ghost invariant = { λ s. s.room ≤ vec_capacity s.bytes };
}

impl MemSink {
    ghost use Rattle.track_outside.specs.Memory.{new_output, named_output};

    /// A sink with this room, whose calls with these numbers, counted from 1, fail. It takes the memory for all of its
    /// room at once, so writing takes none. Linear in the room and the length of `fails`.
    pub fn new(alloc: Global, room: usize, fails: &[u64]) -> Result<MemSink, NoMemory>
        ensures made { IfOk result (λ sink. sink ≡ new_output room fails.now) }
    {
        Ok(MemSink {
            name: Vec::new(alloc),
            bytes: Vec::with_capacity(alloc, room)?,
            room,
            plan: PlannedFaults::new(alloc, fails)?,
        })
    }

    // A sink of this name and room, of which no call is planned to fail.
    pub(crate) fn named(alloc: Global, name: &str, room: usize) -> Result<MemSink, NoMemory>
        ensures made { IfOk result (λ sink. sink ≡ named_output name.now room []) }
    {
        Ok(MemSink {
            name: Vec::from_slice(alloc, name.as_bytes())?,
            bytes: Vec::with_capacity(alloc, room)?,
            room,
            plan: PlannedFaults::new(alloc, &[])?,
        })
    }

    // Its name, the bytes that it took, and how often it failed.
    pub(crate) fn into_parts(self) -> (Vec<u8>, Vec<u8>, u64)
        ensures name { result.0.items ≡ self.name }
        ensures taken { result.1.items ≡ self.taken }
        ensures faults { result.2 ≡ self.faults }
    {
        (self.name, self.bytes, self.plan.faults)
    }

    /// The bytes that it has taken.
    pub fn bytes(&self) -> &[u8]
        ensures { result.now ≡ self.now.taken }
    {
        &self.bytes
    }
}

impl Sink for MemSink {
    ghost taken = { λ s. Some s.taken };

    ghost faults = { λ s. s.faults };

    ghost name = { λ s. s.name };

    /// Takes as many bytes as have room. It fails, and takes nothing, exactly where the call's number is planned to fail,
    /// no byte has room, or the piece is empty. Linear in the bytes taken and in the plan; takes no memory.
    fn write(&mut self, bytes: &[u8]) -> Result<usize, Failed>
        ensures writes { MemWrites self.old self.new bytes.now result }
        ensures counts { self.old.faults ≤ self.new.faults }
    {
        let fails = self.plan.next_fails();
        let count = bytes.len().min(self.room.saturating_sub(self.bytes.len()));
        if fails || count == 0 {
            count_fault(&mut self.plan.faults);
            return Err(Failed);
        }
        match self.bytes.extend_from_slice(&bytes[..count]) {
            Ok(()) => Ok(count),
            Err(_) => unreachable!(),
        }
    }
}
