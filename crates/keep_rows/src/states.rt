//! The machines that rows make.
ghost use Rattle.std.specs.Prelude.{◌≡◌, ◌≢◌, ◌↔◌, List, true, false, drop, Err, IfOk, IsTrue, IsFalse};
ghost use Rattle.history_model.specs.declared.entries.Entry.{Entry as AnEntry};
ghost use Rattle.store_rows.specs.Rows.{machine_row, entry_row};
ghost use Rattle.track_model.specs.Tracks.{Track};
ghost use Rattle.keep_rows.specs.Kept.{is_kept, AreKept};
ghost use Rattle.track_entry.specs.declared.fault.EntryFault.TheVariants as fault;
ghost use Rattle.keep_rows.specs.{Loading.{nothing_stored, Adds, SpellsIn}, Rows.format_row};

use crate::NoMemory;
use crate::loaded::Loaded;
use crate::place::place_of;
use history_model::Entry;
use line_text::{Name, Names};
use metric_table::Limit;
use std::alloc::Global;
use std::marker::Model;
use store_rows::{Restored, RowFault, read_row, rows_law};
use track_entry::{EntryFault, entries_law, entries_v1_law, read_entry_v1_with, read_entry_with};
use track_replay::{MachineState, replay};

// How many names are kept, so that they are shared where they come again.
const NAMES: usize = 4_096;

// The machines that rows made, in order.
#[derive(Drop)]
pub(crate) struct States {
    pub(crate) alloc: Global,
    pub(crate) machines: Vec<MachineState>,
    // The names that have come.
    names: Names,
    // The version of the rows behind those that were taken.
    version: u8,
}

impl Model for States {
    ghost use Rattle.keep_rows.specs.{Codes.track_codes, Kept.AreKept, Loading.Stored};

    ghost Value = { Stored };

    ghost coded = { Prim.hlevel track_codes };

    ghost view = { λ s. record { machines = s.machines.items; version = s.version } };

    ghost invariant = { λ s. AreKept s.machines.items };
}

impl States {
    pub(crate) fn new(alloc: Global) -> States
        ensures { result ≡ nothing_stored }
    {
        States {
            alloc,
            machines: Vec::new(alloc),
            names: Names::new(alloc, NAMES),
            version: 1,
        }
    }

    // What they are, once all rows were taken.
    pub(crate) fn into_loaded(self) -> Loaded
        ensures stored { result ≡ self }
        ensures kept { AreKept result.machines }
    {
        Loaded {
            states: self.machines,
            version: self.version,
        }
    }

    // Goes on with version 2, or answers false and changes nothing, where that stands already.
    fn set_format(&mut self) -> bool
        ensures set { IsTrue result → (self.old.version ≡ 1)
            × (self.new ≡ record { machines = self.old.machines; version = 2 }) }
        ensures refused { IsFalse result → (self.old.version ≢ 1) × (self.new ≡ self.old) }
    {
        if self.version != 1 {
            return false;
        }
        self.version = 2;
        true
    }

    // Adds a machine, or answers false and changes nothing, exactly where its row can do nothing.
    fn add_machine(&mut self, machine: Name) -> Result<bool, NoMemory>
        ensures added { IfOk result (λ done. done ≡ true
            → Adds self.old.version self.old.machines (machine_row machine) self.new.machines) }
        ensures refused { IfOk result (λ done. done ≡ false
            → (after : List Track)
            → ¬ Adds self.old.version self.old.machines (machine_row machine) after) }
        ensures version { self.new.version ≡ self.old.version }
        ensures kept { IfOk result (λ done. done ≡ false → self.new ≡ self.old) }
    {
        if self.machines.len() as u64 >= Limit::Machines.most() {
            return Ok(false);
        }
        if place_of(&self.machines, &machine).is_some() {
            return Ok(false);
        }
        self.machines
            .push(MachineState::new(self.alloc, machine, true))?;
        Ok(true)
    }

    // Adds the entry of a text to a machine, or answers false and changes nothing, exactly where its row can do nothing.
    fn add_text(&mut self, machine: &Name, text: &[u8]) -> Result<bool, NoMemory>
        ensures added { IfOk result (λ done. done ≡ true
            → Adds self.old.version self.old.machines (entry_row machine.now text.now)
            self.new.machines) }
        ensures refused { IfOk result (λ done. done ≡ false
            → (after : List Track)
            → ¬ Adds self.old.version self.old.machines (entry_row machine.now text.now) after) }
        ensures version { self.new.version ≡ self.old.version }
        ensures kept { IfOk result (λ done. done ≡ false → self.new ≡ self.old) }
    {
        entries_law();
        entries_v1_law();
        let Some(place) = place_of(&self.machines, machine) else {
            return Ok(false);
        };
        let entry = match read_in(self.alloc, &mut self.names, self.version, text) {
            Ok(entry) => entry,
            Err(EntryFault::NotEntry) => return Ok(false),
            Err(EntryFault::NoMemory) => return Err(NoMemory),
        };
        if !is_kept(&entry) {
            return Ok(false);
        }
        replay(&mut self.machines[place], entry)
    }
}

impl Restored for States {
    ghost use Rattle.std.specs.Prelude.{◌≡◌};
    ghost use Rattle.keep_rows.specs.Loading.{Makes};

    ghost does = { Makes };

    fn take(&mut self, alloc: Global, row: &[u8]) -> Result<bool, NoMemory> {
        rows_law();
        if is_format(row) {
            return Ok(self.set_format());
        }
        let head = match read_row(alloc, &mut self.names, row) {
            Ok(head) => head,
            Err(RowFault::NotRow) => return Ok(false),
            Err(RowFault::NoMemory) => return Err(NoMemory),
        };
        match head.text {
            None => self.add_machine(head.machine),
            Some(at) => self.add_text(&head.machine, rest_of(row, at)),
        }
    }
}

// Whether the row says that the version is 2.
fn is_format(row: &[u8]) -> bool
    ensures { IsTrue result ↔ (row.now ≡ format_row) }
{
    row == b"format 2".as_slice()
}

// The entry that a text spells in a version.
fn read_in(alloc: Global, names: &mut Names, version: u8, text: &[u8]) -> Result<Entry, EntryFault>
    ensures spelt { IfOk result (λ entry. SpellsIn version text.now entry) }
    ensures none { result ≡ Err fault.NotEntry → (e : AnEntry) → ¬ SpellsIn version text.now e }
{
    if version < 2 {
        return read_entry_v1_with(alloc, names, text);
    }
    read_entry_with(alloc, names, text)
}

// What stands in a row from a place on.
fn rest_of(row: &[u8], at: usize) -> &[u8]
    ensures { result.now ≡ drop at row.now }
{
    if at < row.len() { &row[at..] } else { &[] }
}

// Whether a store keeps the entry.
pub(crate) fn is_kept(entry: &Entry) -> bool
    ensures { result ≡ is_kept entry.now }
{
    !matches!(entry, Entry::Publish { .. })
}
