//! Tests that are programs of the system.
ghost use Rattle.std.specs.Prelude.{◌≡◌, ℕ, None};

use crate::fault_count::count_fault;
use crate::out_error::OutError;
use crate::runner::Runner;
use std::alloc::Global;
use std::io;
use std::marker::Model;
use std::process::{Command, Stdio};

/// Runs a program of the system for each ask, and waits for it. It does not tell what it was asked; contracts see how often
/// it failed.
#[derive(Drop)]
pub struct RealRunner<'a> {
    rt: &'a HostRuntime,
    faults: u64,
}

impl<'a> Model for RealRunner<'a> {
    ghost Value = { ℕ };

    ghost view = { λ s. s.faults };
}

impl<'a> RealRunner<'a> {
    /// A runner before the first call.
    pub fn new(rt: &'a HostRuntime) -> RealRunner<'a>
        ensures { result ≡ 0 }
    {
        RealRunner { rt, faults: 0 }
    }
}

impl<'a> Runner for RealRunner<'a> {
    ghost asked = { λ s. None };

    ghost faults = { λ s. s };

    /// Starts the program `test` with the commit's name as its one argument, and waits for it. One that ends by a signal has
    /// the status 128. It fails where the program can't be started or waited for. What the program prints goes to standard
    /// error, and it has no input.
    fn ask(&mut self, alloc: Global, test: &str, commit: &str) -> Result<u8, OutError> {
        let mut command = Command::new(alloc, test)?;
        command.arg(commit)?;
        command.stdin(Stdio::null()).stdout(self.rt.stderr());
        match status_of(self.rt, &mut command) {
            Ok(status) => Ok(status),
            Err(_) => {
                count_fault(&mut self.faults);
                Err(OutError::Failed)
            }
        }
    }
}

// How the program ended.
fn status_of(rt: &HostRuntime, command: &mut Command) -> io::Result<u8> {
    let status = command.status(rt)?;
    match status.code() {
        Some(code) => Ok(u8::try_from(code).unwrap_or(128)),
        None => Ok(128),
    }
}
