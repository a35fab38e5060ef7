//! The machines that a shared run begins with.
ghost use Rattle.std.specs.Prelude.{◌≡◌, ◌≢◌, ◌≤◌, ℕ, false, length, IfOk, IfErr, OnOk, Ok, Err, MatchBool};
ghost use Rattle.command_words.specs.Texts.{shown_if};
ghost use Rattle.shared_run.specs.Beginnings.{AreStored, Begins, MayBeStarted, NoneCause, StoreCause, WasStarted};
ghost use Rattle.shared_run.specs.declared.stop.RunStop.TheVariants as stop;
ghost use Rattle.shared_run.specs.{Lists.{with_listed, with_machine, IsFull, IsFullAt}, declared.machines.ListFault.TheVariants.Full};
ghost use Rattle.metric_table.specs.{Limits.most, declared.limits.Limit.TheVariants.Machines};

use crate::stop::RunStop;
use command_words::PlayPlan;
use keep_rows::{Loaded, load, place_of};
use line_text::{Duplicate, Name};
use machine_state::MachineState;
use metric_table::Limit;
use std::alloc::{AllocError, Global};
use store_rows::LoadFault;
use track_outside::Keeper;

/// Why the machines of a list aren't added.
#[derive(Clone, Copy, Debug, PartialEq, Eq)]
pub enum ListFault {
    /// The machine at this place of the list, counted from 1, is one too many.
    Full(u64),
    /// There was no memory.
    NoMemory,
}

/// Adds the machines of the list that aren't there, in order. A refusal leaves those that were added before it. Linear in the
/// list, for each of the machines that are there.
pub fn add_listed(
    alloc: Global,
    machines: &mut Vec<MachineState>,
    list: &[Name],
) -> Result<(), ListFault>
    requires few { length machines.old.items ≤ most Machines }
    ensures few { length machines.new.items ≤ most Machines }
    ensures ok { OnOk result (machines.new.items ≡ with_listed machines.old.items list.now) }
    ensures full { (place : ℕ) → result ≡ Err (Full place)
        → IsFullAt machines.old.items list.now place }
{
    for (i, name) in list.iter().enumerate() {
        match add_machine(alloc, machines, name) {
            Ok(true) => {}
            Ok(false) => return Err(ListFault::Full(i as u64 + 1)),
            Err(_) => return Err(ListFault::NoMemory),
        }
    }
    Ok(())
}

// Adds a machine unless it is there, and says whether it is there now: there may be no room for it.
fn add_machine(
    alloc: Global,
    machines: &mut Vec<MachineState>,
    name: &Name,
) -> Result<bool, AllocError>
    requires few { length machines.old.items ≤ most Machines }
    ensures few { length machines.new.items ≤ most Machines }
    ensures there { IfOk result (λ there. MatchBool there
        (machines.new.items ≡ with_machine machines.old.items name.now)
        (IsFull machines.old.items name.now)) }
    ensures kept { result ≡ Ok false → machines.new.items ≡ machines.old.items }
{
    if place_of(machines, name).is_some() {
        return Ok(true);
    }
    if machines.len() as u64 >= Limit::Machines.most() {
        return Ok(false);
    }
    machines.push(MachineState::new(alloc, name.copy(alloc)?, false))?;
    Ok(true)
}

/// The machines of the plan's store, if one is named, and those of its list, and the version of the store's rows. The keeper is
/// started once by the store's name, and its rows stay.
pub fn first_machines<K: Keeper>(
    alloc: Global,
    plan: &PlayPlan<'_>,
    keeper: &mut K,
) -> Result<Loaded, RunStop>
    ensures begins { IfOk result (λ loaded. Begins K.Keeper plan.now keeper.old loaded) }
    ensures few { IfOk result (λ loaded. length loaded.machines ≤ most Machines) }
    ensures cause { IfErr result (NoneCause K.Keeper plan.now keeper.old keeper.new) }
    ensures started { result ≢ Err stop.NoMemory
        → WasStarted K.Keeper plan.now.store keeper.old keeper.new }
    ensures once { MayBeStarted K.Keeper plan.now.store keeper.old keeper.new }
    ensures counts { K.faults keeper.old ≤ K.faults keeper.new }
    ensures rows { K.kept keeper.new ≡ K.kept keeper.old }
{
    let Loaded {
        mut states,
        version,
    } = stored_machines(alloc, plan.store(), keeper)?;
    match add_listed(alloc, &mut states, plan.machines()) {
        Ok(()) => Ok(Loaded { states, version }),
        Err(ListFault::Full(place)) => Err(RunStop::Full(place)),
        Err(ListFault::NoMemory) => Err(RunStop::NoMemory),
    }
}

// The machines of a store and the version of its rows, if one is named.
fn stored_machines<K: Keeper>(
    alloc: Global,
    store: Option<&str>,
    keeper: &mut K,
) -> Result<Loaded, RunStop>
    ensures stored { IfOk result (λ loaded.
        AreStored K.Keeper (shown_if store.entry) keeper.old loaded) }
    ensures few { IfOk result (λ loaded. length loaded.machines ≤ most Machines) }
    ensures cause { IfErr result (StoreCause K.Keeper (shown_if store.entry) keeper.old keeper.new) }
    ensures started { result ≢ Err stop.NoMemory
        → WasStarted K.Keeper (shown_if store.entry) keeper.old keeper.new }
    ensures once { MayBeStarted K.Keeper (shown_if store.entry) keeper.old keeper.new }
    ensures counts { K.faults keeper.old ≤ K.faults keeper.new }
    ensures rows { K.kept keeper.new ≡ K.kept keeper.old }
{
    let Some(name) = store else {
        return Ok(Loaded {
            states: Vec::new(alloc),
            version: 1,
        });
    };
    match load(alloc, keeper, name) {
        Ok(loaded) => Ok(loaded),
        Err(LoadFault::KeepFault) => Err(RunStop::StoreFault),
        Err(LoadFault::BadRow(row)) => Err(RunStop::BadStore(row)),
        Err(LoadFault::NoMemory) => Err(RunStop::NoMemory),
    }
}
