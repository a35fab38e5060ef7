//! Files of which none can be opened or created.
ghost use Rattle.std.specs.Prelude.{None};

use std::alloc::Global;
use std::marker::PhantomData;
use track_outside::{Files, MemSink, OutError, Sink, Source};

// Files whose inputs would be of this type. They tell contracts nothing of their names.
#[derive(Drop)]
pub struct Closed<I> {
    reads: u64,
    writes: u64,
    inputs: PhantomData<I>,
}

impl<I> Closed<I> {
    pub fn new() -> Closed<I> {
        Closed {
            reads: 0,
            writes: 0,
            inputs: PhantomData,
        }
    }
}

impl<I: Source + Send + Drop> Files for Closed<I> {
    type Input = I;

    type Output = MemSink;

    ghost contents = { λ _. None };

    ghost asked = { λ _. None };

    ghost read_faults = { λ s. s.reads };

    ghost write_faults = { λ s. s.writes };

    fn open_input(&mut self, _alloc: Global, _name: &str) -> Result<I, OutError> {
        self.reads = self.reads.saturating_add(1);
        Err(OutError::Failed)
    }

    fn create_output(&mut self, _alloc: Global, _name: &str) -> Result<MemSink, OutError> {
        self.writes = self.writes.saturating_add(1);
        Err(OutError::Failed)
    }

    fn close_input(&mut self, _input: I) {
        self.reads = self.reads.saturating_add(1);
    }

    fn close_output(&mut self, _output: MemSink) {
        self.writes = self.writes.saturating_add(1);
    }
}
