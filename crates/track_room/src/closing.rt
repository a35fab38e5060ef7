//! The end of a room.
ghost use Rattle.std.specs.{Prelude.{◌≡◌, ◌≤◌, [], IfOk, IfErr, IsOkAnd, length, vec_capacity}, List.AllZip};
ghost use Rattle.metric_table.specs.{Limits.most, declared.limits.Limit.TheVariants.Machines};
ghost use Rattle.track_room.specs.{Closing.IsCause, Rooms.{IsPassOf, IsWhole}, Sights.{Ends, EndsWhole, tracks_of}};

use crate::machine::{MachineLock, MachinePass};
use history_lock::InUse;
use track_state::TrackState;

/// Why a room gives no machines when it ends.
#[derive(Clone, Copy, Debug, PartialEq, Eq)]
pub enum CloseFault {
    /// Some pass holds a machine, waits for it, or was dropped while it held it.
    InUse {
        /// The machine's place, from 0.
        machine: u8,
        /// How many turns at its lock were drawn, modulo 2^64.
        ticket: u64,
        /// How many turns were served.
        serving: u64,
    },
    /// There is no memory. A room takes what its end needs when it is made, so that this doesn't come.
    NoMemory,
}

// Ends the locks, each with its pass, and gives the machines, in the memory of a list that has room for them.
pub(crate) fn close_each(
    machines: Vec<MachineLock>,
    passes: Vec<MachinePass>,
    mut states: Vec<TrackState>,
) -> Result<Vec<TrackState>, CloseFault>
    requires locks { IsPassOf machines.items passes.items }
    requires few { length passes.items ≤ most Machines }
    requires none { states.items ≡ [] }
    requires room { length passes.items ≤ vec_capacity states }
    ensures ok { IfOk result (λ states. AllZip Ends passes.items (tracks_of states.items)) }
    ensures err { IfErr result (IsCause passes.items) }
    ensures whole { IsWhole passes.items →
        IsOkAnd result (λ states. AllZip EndsWhole passes.items (tracks_of states.items)) }
{
    let mut locks = machines.into_iter();
    let mut machine = 0;
    for pass in passes {
        let Some(lock) = locks.next() else {
            unreachable!()
        };
        match lock.close(pass) {
            Ok(state) => states.push_reserved(state),
            Err(InUse { ticket, serving }) => {
                return Err(CloseFault::InUse {
                    machine,
                    ticket,
                    serving,
                });
            }
        }
        machine += 1;
    }
    Ok(states)
}
