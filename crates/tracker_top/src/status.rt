//! How a command ends.
ghost use Rattle.std.specs.{Prelude.◌≡◌, Process.exit_status};
ghost use Rattle.tracker_top.specs.{Statuses.{append_status_of, load_status_of, number_of, script_status_of, status_of, stopped_status_of}, Audits.audit_status_of, Hunts.hunt_status_of, Paths.path_status_of, Plays.run_status_of, declared.status.Status.Status};

use audit_command::{AuditEnd, AuditStop, FileStop, Verdict};
use cut_lines::{Refusal, Stop};
use hunt_command::HuntEnd;
use keep_rows::{AppendFault, LoadFault};
use path_command::PathEnd;
use shared_run::RunStop;
use std::alloc::AllocError;
use std::process::ExitCode;
use trial_script::Stop as ScriptStop;

/// How a command ends. A line is named by its number, from 1, and an input by its script's number, where standard
/// input is 0; in `audit` by its file's place in the order of opening.
#[derive(Clone, Copy, Debug, PartialEq, Eq)]
pub enum Status {
    /// The input was read to its end, and all was written.
    Done,
    /// The words are no command.
    BadWords,
    /// The input failed.
    ReadFault,
    /// The output failed.
    WriteFault,
    /// The keeper of the store failed.
    StoreFault,
    /// This row of the store, counted from 1, is none, or isn't allowed after those before it.
    BadStore(u64),
    /// This script ends inside the body of the request line that begins at this byte, or has a line there that is too long.
    CutOff(u64, u64),
    /// There was no memory.
    NoMemory,
    /// A byte past the first 2^30 of this input was needed, and there is one.
    InputTooLong(u64),
    /// This line is no cut line, or says no new commit.
    BadLine(u64),
    /// This line would pass a limit of a series, or of commits.
    Full(u64),
    /// The files of a shared run don't fit together, by this verdict.
    Differs(Verdict),
    /// There are only so many commits, fewer than two.
    TooFew(u64),
}

impl Status {
    /// The number that the program ends with, from 0 to 14.
    pub fn number(&self) -> u8
        ensures { result ≡ number_of self.now }
    {
        match self {
            Status::Done => 0,
            Status::BadWords => 2,
            Status::ReadFault => 3,
            Status::WriteFault => 4,
            Status::StoreFault => 5,
            Status::BadStore(_) => 6,
            Status::CutOff(_, _) => 7,
            Status::NoMemory => 8,
            Status::InputTooLong(_) => 9,
            Status::BadLine(_) => 10,
            Status::Full(_) => 11,
            Status::Differs(_) => 13,
            Status::TooFew(_) => 14,
        }
    }

    /// What the program's process ends with: the status' number.
    pub fn exit_code(&self) -> ExitCode
        ensures exit_status { exit_status result ≡ number_of self.now }
    {
        ExitCode::from(self.number())
    }
}

impl From<AllocError> for Status {
    ghost from_gives = { λ _ status. status ≡ Status.NoMemory };

    fn from(_: AllocError) -> Status {
        Status::NoMemory
    }
}

/// How a command ends where reading of its lines stops.
impl From<Stop> for Status {
    ghost from_gives = { λ stop status. status ≡ status_of stop };

    fn from(stop: Stop) -> Status {
        match stop {
            Stop::Fault => Status::ReadFault,
            Stop::TooLong => Status::InputTooLong(0),
            Stop::Refused(Refusal::Bad, line) => Status::BadLine(line),
            Stop::Refused(Refusal::Full, line) => Status::Full(line),
            Stop::NoMemory => Status::NoMemory,
        }
    }
}

/// How `path` ends.
impl From<PathEnd> for Status {
    ghost from_gives = { λ end status. status ≡ path_status_of end };

    fn from(end: PathEnd) -> Status {
        match end {
            PathEnd::Done => Status::Done,
            PathEnd::Stopped(stop) => Status::from(stop),
            PathEnd::WriteFault => Status::WriteFault,
        }
    }
}

/// How `hunt` ends.
impl From<HuntEnd> for Status {
    ghost from_gives = { λ end status. status ≡ hunt_status_of end };

    fn from(end: HuntEnd) -> Status {
        match end {
            HuntEnd::Done => Status::Done,
            HuntEnd::Stopped(stop) => Status::from(stop),
            HuntEnd::TooFew(count) => Status::TooFew(count),
            HuntEnd::WriteFault => Status::WriteFault,
        }
    }
}

/// How `audit` ends.
impl From<AuditEnd> for Status {
    ghost from_gives = { λ end status. status ≡ audit_status_of end };

    fn from(end: AuditEnd) -> Status {
        match end {
            AuditEnd::Done => Status::Done,
            AuditEnd::Differs(verdict) => Status::Differs(verdict),
            AuditEnd::Unread(FileStop::ReadFault) => Status::ReadFault,
            AuditEnd::Unread(FileStop::TooLong(place)) => Status::InputTooLong(place),
            AuditEnd::Unread(FileStop::NoMemory) => Status::NoMemory,
            AuditEnd::NoVerdict(AuditStop::CutOff { script, offset }) => {
                Status::CutOff(script, offset)
            }
            AuditEnd::NoVerdict(AuditStop::NoMemory) => Status::NoMemory,
            AuditEnd::WriteFault => Status::WriteFault,
        }
    }
}

/// How a command ends where the answering of the script on standard input stops.
impl From<ScriptStop> for Status {
    ghost from_gives = { λ stop status. status ≡ script_status_of stop };

    fn from(stop: ScriptStop) -> Status {
        stopped(0, stop)
    }
}

/// How a command ends where the rows of its store are not loaded.
impl From<LoadFault> for Status {
    ghost from_gives = { λ fault status. status ≡ load_status_of fault };

    fn from(fault: LoadFault) -> Status {
        match fault {
            LoadFault::KeepFault => Status::StoreFault,
            LoadFault::BadRow(row) => Status::BadStore(row),
            LoadFault::NoMemory => Status::NoMemory,
        }
    }
}

/// How a command ends where the new rows of its store are not appended.
impl From<AppendFault> for Status {
    ghost from_gives = { λ fault status. status ≡ append_status_of fault };

    fn from(fault: AppendFault) -> Status {
        match fault {
            AppendFault::KeepFault => Status::StoreFault,
            AppendFault::NoMemory => Status::NoMemory,
        }
    }
}

/// How `play` ends where its run stops.
impl From<RunStop> for Status {
    ghost from_gives = { λ stop status. status ≡ run_status_of stop };

    fn from(stop: RunStop) -> Status {
        match stop {
            RunStop::NoMemory => Status::NoMemory,
            RunStop::StoreFault => Status::StoreFault,
            RunStop::BadStore(row) => Status::BadStore(row),
            RunStop::Full(place) => Status::Full(place),
            RunStop::OpenFault => Status::ReadFault,
            RunStop::CreateFault => Status::WriteFault,
            RunStop::WriteFault => Status::WriteFault,
            RunStop::Script(number, stop) => stopped(number, stop),
        }
    }
}

// How a command ends where the script of this number stops.
fn stopped(number: u64, stop: ScriptStop) -> Status
    ensures { result ≡ stopped_status_of number stop }
{
    match stop {
        ScriptStop::ReadFault => Status::ReadFault,
        ScriptStop::WriteFault => Status::WriteFault,
        ScriptStop::CutOff(offset) => Status::CutOff(number, offset),
        ScriptStop::InputTooLong => Status::InputTooLong(number),
        ScriptStop::NoMemory => Status::NoMemory,
    }
}
