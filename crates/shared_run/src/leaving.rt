//! The journals of a run, written, and their new rows added to the store.
ghost use Rattle.std.specs.{Prelude.{◌≡◌, ◌≤◌, IsSome, None, false, OnOk, Ok, Err}, List.AllByRecursion};
ghost use Rattle.track_outside.specs.{Counts.Rose, Kept.with_more};
ghost use Rattle.command_words.specs.Texts.{shown_if};
ghost use Rattle.keep_rows.specs.Rows.{new_rows};
ghost use Rattle.journal_text.specs.Journals.{journals_text};
ghost use Rattle.shared_run.specs.declared.stop.RunStop.TheVariants as stop;
ghost use Rattle.shared_run.specs.{Leaving.WritesText, Ran.HasLegalHistory, Stops.NoneStopped};

use crate::stop::{RunStop, first_stop};
use journal_text::write_journals;
use keep_rows::append_all;
use machine_state::MachineState;
use script_loop::Stop;
use std::alloc::Global;
use track_outside::{Keeper, OutError, Sink};

// Writes the journals, and adds their new rows where a store of this version is named, no script stopped, and there was memory for all that
// workers do.
pub(crate) fn leave_journals<O: Sink, K: Keeper>(
    alloc: Global,
    store: Option<&str>,
    version: u8,
    full: bool,
    ended: &[Result<(), Stop>],
    journals: &[MachineState],
    out: &mut O,
    keeper: &mut K,
) -> Result<(), RunStop>
    ensures wrote { WritesText O.Sink out.old out.new (journals_text journals.now) result }
    ensures added { OnOk result (NoneStopped ended.now → IsSome (shown_if store.entry)
        → K.kept keeper.new ≡ with_more (K.kept keeper.old) (new_rows version journals.now)) }
    ensures kept { (result ≡ Ok tt → NoneStopped ended.now → ⊥)
        → K.kept keeper.new ≡ K.kept keeper.old }
    ensures unnamed { shown_if store.entry ≡ None → keeper.new ≡ keeper.old }
    ensures started { K.started keeper.new ≡ K.started keeper.old }
    ensures counts { K.faults keeper.old ≤ K.faults keeper.new }
    ensures wanting { full ≡ false → result ≡ Err stop.NoMemory }
    ensures rose { result ≡ Err stop.StoreFault
        → IsSome (shown_if store.entry) × Rose (K.faults keeper.old) (K.faults keeper.new) }
{
    if !full {
        let _ = write_journals(alloc, journals, out);
        return Err(RunStop::NoMemory);
    }
    match write_journals(alloc, journals, out) {
        Ok(()) => {}
        Err(OutError::Failed) => return Err(RunStop::WriteFault),
        Err(OutError::NoMemory) => return Err(RunStop::NoMemory),
    }
    if store.is_none() {
        return Ok(());
    }
    if first_stop(ended).is_some() {
        return Ok(());
    }
    match append_all(alloc, keeper, journals, version) {
        Ok(()) => Ok(()),
        Err(fault) => Err(RunStop::from(fault)),
    }
}

// The machines have legal histories. Changes nothing: its contract is what it is for.
pub(crate) fn histories_law(machines: &[MachineState])
    ensures { AllByRecursion HasLegalHistory machines.now }
{
    let Some((first, rest)) = machines.split_first() else {
        return;
    };
    first.history_law();
    histories_law(rest);
}
