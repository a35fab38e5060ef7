//! The new rows of machines, added to a keeper.
ghost use Rattle.std.specs.Prelude.{◌≡◌, ◌≤◌, [], ◌∷◌, ◌++◌, map, filter, OnOk, OnErr};
ghost use Rattle.track_outside.specs.{Counts.Rose, Kept.{bytes_of, with_more}};
ghost use Rattle.store_rows.specs.declared.append.AppendFault.TheVariants as fault;
ghost use Rattle.keep_rows.specs.Rows.{is_new, is_of_session, row_of, head_rows, track_rows, session_rows, placed, new_rows};

use crate::NoMemory;
use crate::states::is_kept;
use history_model::{Author, Placed};
use line_text::Name;
use std::alloc::Global;
use store_rows::{AppendFault, Recorded, append_each, put_entry_row, put_machine_row};
use track_entry::put_entry;
use track_outside::Keeper;
use track_replay::MachineState;

/// Adds the new rows of the machines to a store of this version by one call of the keeper, also where there are none; or
/// adds none.
///
/// Linear in the entries of the machines, and in the bytes of the rows.
pub fn append_all<K: Keeper>(
    alloc: Global,
    keeper: &mut K,
    machines: &[MachineState],
    version: u8,
) -> Result<(), AppendFault>
    ensures all { OnOk result
        (K.kept keeper.new ≡ with_more (K.kept keeper.old) (new_rows version machines.now)) }
    ensures none { OnErr result (K.kept keeper.new ≡ K.kept keeper.old) }
    ensures named { K.started keeper.new ≡ K.started keeper.old }
    ensures counts { K.faults keeper.old ≤ K.faults keeper.new }
    ensures rose { result ≡ Err fault.KeepFault → Rose (K.faults keeper.old) (K.faults keeper.new) }
{
    append_each(alloc, keeper, &[Machines { machines, version }])
}

// The machines whose new rows are added together.
#[derive(Drop)]
struct Machines<'a> {
    machines: &'a [MachineState],
    version: u8,
}

impl<'a> Recorded for Machines<'a> {
    ghost use Rattle.keep_rows.specs.Rows.{new_rows};

    ghost new_rows = { λ m. new_rows m.version m.machines.now };

    fn put_rows(&self, alloc: Global, out: &mut Vec<Vec<u8>>) -> Result<(), NoMemory> {
        let mut rows = Vec::new(alloc);
        put_each(alloc, &mut rows, self.machines)?;
        put_placed_rows(alloc, out, self.version, rows)
    }
}

// Rows behind others, and before them the row of the version where that is new.
fn put_placed_rows(
    alloc: Global,
    out: &mut Vec<Vec<u8>>,
    version: u8,
    mut rows: Vec<Vec<u8>>,
) -> Result<(), NoMemory>
    ensures { OnOk result (bytes_of out.new.items
        ≡ bytes_of out.old.items ++ placed version (bytes_of rows.items)) }
{
    if rows.is_empty() {
        return Ok(());
    }
    if version == 1 {
        out.push(Vec::from_slice(alloc, b"format 2")?)?;
    }
    out.append(&mut rows)?;
    Ok(())
}

// The new rows of each machine, in order.
fn put_each(
    alloc: Global,
    out: &mut Vec<Vec<u8>>,
    machines: &[MachineState],
) -> Result<(), NoMemory>
    ensures { OnOk result
        (bytes_of out.new.items ≡ bytes_of out.old.items ++ session_rows machines.now) }
{
    for machine in machines {
        put_machine(alloc, out, machine)?;
    }
    Ok(())
}

// The new rows of a machine: its own, and those of its new entries.
fn put_machine(
    alloc: Global,
    out: &mut Vec<Vec<u8>>,
    machine: &MachineState,
) -> Result<(), NoMemory>
    ensures { OnOk result
        (bytes_of out.new.items ≡ bytes_of out.old.items ++ track_rows machine.now) }
{
    put_head(alloc, out, machine)?;
    for k in 0..machine.len() {
        match machine.entry(k + 1) {
            Some(placed) => put_placed(alloc, out, machine.machine(), placed)?,
            None => unreachable!(),
        }
    }
    Ok(())
}

// The machine's own row, where the store had it not.
fn put_head(alloc: Global, out: &mut Vec<Vec<u8>>, machine: &MachineState) -> Result<(), NoMemory>
    ensures { OnOk result
        (bytes_of out.new.items ≡ bytes_of out.old.items ++ head_rows machine.now) }
{
    if !machine.was_kept() {
        out.push(put_machine_row(alloc, machine.machine())?)?;
    }
    Ok(())
}

// The row of an entry, if it is new.
fn put_placed(
    alloc: Global,
    out: &mut Vec<Vec<u8>>,
    machine: &Name,
    placed: &Placed,
) -> Result<(), NoMemory>
    ensures { OnOk result
        (bytes_of out.new.items ≡ bytes_of out.old.items
        ++ map (row_of machine.now) (filter is_new (placed.now ∷ []))) }
{
    if is_of_session(&placed.author) && is_kept(&placed.entry) {
        let mut text = Vec::new(alloc);
        put_entry(alloc, &mut text, &placed.entry)?;
        out.push(put_entry_row(alloc, machine, &text)?)?;
    }
    Ok(())
}

// Whether anyone but the store made an entry.
fn is_of_session(author: &Author) -> bool
    ensures { result ≡ is_of_session author.now }
{
    !matches!(author, Author::Kept)
}
