//! The verdict on the files of a shared run.
ghost use Rattle.std.specs.Prelude.{◌≡◌};
ghost use Rattle.audit_model.specs.declared.verdict.AuditStop.{AuditStop};

use crate::NoMemory;

/// The verdict on the files of a shared run.
#[derive(Clone, Copy, Debug, PartialEq, Eq)]
pub enum Verdict {
    /// They fit together.
    Shown {
        /// How many machines there are.
        machines: u64,
        /// How many entries their histories have together.
        steps: u64,
        /// How many requests the scripts have together.
        requests: u64,
    },
    /// This line of the journals, from 1, is the first that doesn't fit.
    JournalLine(u64),
    /// This request's reply is the first that doesn't fit.
    Request {
        /// The script, from 1.
        script: u64,
        /// Its request, from 1.
        request: u64,
    },
}

/// Why there is no verdict.
#[derive(Clone, Copy, Debug, PartialEq, Eq)]
pub enum AuditStop {
    /// This script is the first that is cut off.
    CutOff {
        /// The script, from 1.
        script: u64,
        /// Where the line begins that is too long, or whose body isn't whole.
        offset: u64,
    },
    /// There was no memory.
    NoMemory,
}

impl From<NoMemory> for AuditStop {
    ghost from_gives = { λ _ made. made ≡ AuditStop.NoMemory };

    fn from(_: NoMemory) -> AuditStop {
        AuditStop::NoMemory
    }
}
