//! Why a shared run ends as it does, and which of several stops decides.
ghost use Rattle.std.specs.Prelude.{◌≡◌, ◌↔◌, ◌<◌, ◌^◌, length, Contains, IsTrue, IfSome, IfNone, Err};
ghost use Rattle.script_loop.specs.declared.stop.Stop.TheVariants as script;
ghost use Rattle.shared_run.specs.{Causes.{append_stop, open_stop}, declared.stop.RunStop.RunStop, Stops.{Decides, IsFirstStop, NoneStopped}};

use script_files::OpenFault;
use script_loop::Stop;
use std::alloc::AllocError;
use store_rows::AppendFault;

/// Why a shared run isn't done.
#[derive(Clone, Copy, Debug, PartialEq, Eq)]
pub enum RunStop {
    /// There was no memory.
    NoMemory,
    /// The keeper of the store failed.
    StoreFault,
    /// This row of the store, counted from 1, is none, or isn't allowed after those before it.
    BadStore(u64),
    /// The machine at this place of the list, counted from 1, is one too many.
    Full(u64),
    /// A script can't be opened.
    OpenFault,
    /// A transcript can't be created.
    CreateFault,
    /// The script of this number, from 1, stopped so.
    Script(u64, Stop),
    /// The output failed.
    WriteFault,
}

/// The stop that decides how a run ends, by those of its scripts in order and that of what came later: want of memory in any
/// part, else that of the first script that stopped, else the later one.
pub fn deciding_stop(
    scripts: &[Result<(), Stop>],
    later: Result<(), RunStop>,
) -> Result<(), RunStop>
    requires { length scripts.now < 2 ^ 64 }
    ensures { Decides scripts.now later result }
{
    if wants_memory(scripts) {
        return Err(RunStop::NoMemory);
    }
    if let Err(RunStop::NoMemory) = later {
        return later;
    }
    match first_stop(scripts) {
        Some((before, stop)) => Err(RunStop::Script(before + 1, stop)),
        None => later,
    }
}

// Whether memory was wanting in one of the scripts.
fn wants_memory(scripts: &[Result<(), Stop>]) -> bool
    ensures { IsTrue result ↔ Contains scripts.now (Err script.NoMemory) }
{
    let Some((first, rest)) = scripts.split_first() else {
        return false;
    };
    if is_memory(first) {
        return true;
    }
    wants_memory(rest)
}

// Whether it was in this one.
fn is_memory(ended: &Result<(), Stop>) -> bool
    ensures { IsTrue result ↔ (ended.now ≡ Err script.NoMemory) }
{
    match ended {
        Err(Stop::NoMemory) => true,
        _ => false,
    }
}

// The first script that stopped, and how many stand before it.
pub(crate) fn first_stop(scripts: &[Result<(), Stop>]) -> Option<(u64, Stop)>
    ensures some { IfSome result (λ r. IsFirstStop scripts.now r.0 r.1) }
    ensures none { IfNone result (NoneStopped scripts.now) }
{
    for (i, ended) in scripts.iter().enumerate() {
        if let Err(stop) = ended {
            return Some((i as u64, *stop));
        }
    }
    None
}

impl From<AllocError> for RunStop {
    ghost from_gives = { λ _ s. s ≡ RunStop.NoMemory };

    fn from(_: AllocError) -> RunStop {
        RunStop::NoMemory
    }
}

impl From<AppendFault> for RunStop {
    ghost from_gives = { λ fault stop. stop ≡ append_stop fault };

    fn from(fault: AppendFault) -> RunStop {
        match fault {
            AppendFault::KeepFault => RunStop::StoreFault,
            AppendFault::NoMemory => RunStop::NoMemory,
        }
    }
}

impl From<OpenFault> for RunStop {
    ghost from_gives = { λ fault stop. stop ≡ open_stop fault };

    fn from(fault: OpenFault) -> RunStop {
        match fault {
            OpenFault::ReadFault => RunStop::OpenFault,
            OpenFault::WriteFault => RunStop::CreateFault,
            OpenFault::NoMemory => RunStop::NoMemory,
        }
    }
}
