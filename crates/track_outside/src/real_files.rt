//! The files of the system.
ghost use Rattle.std.specs.Prelude.{◌≡◌, None};

use crate::fault_count::count_fault;
use crate::files::Files;
use crate::out_error::OutError;
use crate::real::{RealSink, RealSource};
use std::alloc::Global;
use std::fs;
use std::marker::Model;

/// The files of the system. They tell neither bytes nor calls; contracts see how often reading and writing failed.
#[derive(Drop)]
pub struct RealFiles<'a> {
    rt: &'a HostRuntime,
    read_faults: u64,
    write_faults: u64,
}

impl<'a> Model for RealFiles<'a> {
    ghost use Rattle.track_outside.specs.Named.{Faults};

    ghost Value = { Faults };

    ghost view = { λ s. record { read = s.read_faults; write = s.write_faults } };
}

impl<'a> RealFiles<'a> {
    /// The files of the system, before the first call.
    pub fn new(rt: &'a HostRuntime) -> RealFiles<'a>
        ensures { result ≡ record { read = 0; write = 0 } }
    {
        RealFiles {
            rt,
            read_faults: 0,
            write_faults: 0,
        }
    }
}

impl<'a> Files for RealFiles<'a> {
    type Input = RealSource;

    type Output = RealSink;

    ghost contents = { λ s. None };

    ghost asked = { λ s. None };

    ghost read_faults = { λ s. s.read };

    ghost write_faults = { λ s. s.write };

    fn open_input(&mut self, _alloc: Global, name: &str) -> Result<RealSource, OutError> {
        match fs::open(self.rt, name) {
            Ok(file) => Ok(RealSource::file(file)),
            Err(_) => {
                count_fault(&mut self.read_faults);
                Err(OutError::Failed)
            }
        }
    }

    fn create_output(&mut self, alloc: Global, name: &str) -> Result<RealSink, OutError> {
        let name_kept = Vec::from_slice(alloc, name.as_bytes())?;
        match fs::create(self.rt, name) {
            Ok(file) => Ok(RealSink::file(file, name_kept)),
            Err(_) => {
                count_fault(&mut self.write_faults);
                Err(OutError::Failed)
            }
        }
    }

    fn close_input(&mut self, input: RealSource) {
        if input.faults() > 0 {
            count_fault(&mut self.read_faults);
        }
    }

    fn close_output(&mut self, output: RealSink) {
        if output.faults() > 0 {
            count_fault(&mut self.write_faults);
        }
    }
}
