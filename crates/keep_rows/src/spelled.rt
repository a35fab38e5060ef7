//! What the types keep of machines, so that they can be kept.
ghost use Rattle.std.specs.{Prelude.All, List.AllByRecursion};
ghost use Rattle.keep_rows.specs.Growth.{HasTextIfShort, MayBeKept};

use crate::laws::kept_law;
use track_entry::{entry_law, legal_law};
use track_replay::MachineState;

/// Each of the machines may be kept: its name is a name, its entries have texts, and what is kept of them is legal. Changes
/// nothing: its contract is what it is for.
///
/// Linear in the entries of the machines.
pub fn may_be_kept_law(machines: &[MachineState])
    ensures { AllByRecursion MayBeKept machines.now }
{
    for machine in machines {
        machine_law(machine);
    }
}

fn machine_law(machine: &MachineState)
    ensures { MayBeKept machine.now }
{
    legal_law();
    kept_law();
    machine.history_law();
    machine.machine().bytes_law();
    entries_fit(machine);
}

// What the types keep of each entry.
fn entries_fit(machine: &MachineState)
    ensures { All HasTextIfShort machine.now.history }
{
    for k in 0..machine.len() {
        match machine.entry(k + 1) {
            Some(placed) => entry_law(&placed.entry),
            None => unreachable!(),
        }
    }
}
