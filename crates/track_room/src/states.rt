//! Machines with claims, which a room takes and gives back, and machines without.
ghost use Rattle.std.specs.{Prelude.{◌≡◌, ◌≤◌, ◌+◌, ◌++◌, [], length, map, vec_capacity, IfOk}, Vec.Iter.into_iter_items};
ghost use Rattle.track_room.specs.Sights.{tracks_of};
ghost use Rattle.track_state.specs.Work as work;

use crate::NoMemory;
use std::alloc::Global;
use std::vec::IntoIter;
use track_state::{MachineState, TrackState};

/// These machines, of which nothing is claimed. Linear in them.
pub fn unclaimed(alloc: Global, machines: Vec<MachineState>) -> Result<Vec<TrackState>, NoMemory>
    ensures states { IfOk result (λ states. states.items ≡ map work.unclaimed machines.items) }
    ensures tracks { IfOk result (λ states. tracks_of states.items ≡ machines.items) }
{
    let mut states = Vec::new(alloc);
    for machine in machines {
        states.push(TrackState::of(machine))?;
    }
    Ok(states)
}

/// Gives the machines, whatever is claimed of them, into a list that has room for them. Takes no memory. Linear in them.
pub fn leave_each(states: Vec<TrackState>, left: &mut Vec<MachineState>)
    requires none { left.old.items ≡ [] }
    requires room { length states.items ≤ vec_capacity left.old }
    ensures { left.new.items ≡ tracks_of states.items }
{
    leave_rest(states.into_iter(), left);
}

// Gives those that are left.
fn leave_rest(mut states: IntoIter<TrackState>, left: &mut Vec<MachineState>)
    requires room { length left.old.items + length (into_iter_items states)
        ≤ vec_capacity left.old }
    ensures { left.new.items ≡ left.old.items ++ tracks_of (into_iter_items states) }
{
    let Some(state) = states.next() else {
        return;
    };
    left.push_reserved(state.into_track());
    leave_rest(states, left);
}
