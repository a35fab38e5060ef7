//! Entries, read from their texts of version 1.
ghost use Rattle.std.specs.Prelude.{◌≡◌, ◌≢◌, ◌++◌, codes, IfOk, IsTrue, IsFalse, Err, slice_index_or};
ghost use Rattle.history_model.specs.declared.entries.Entry.{Entry as AnEntry};
ghost use Rattle.track_entry.specs.Versions.{IsOfV1, SpellsV1, IsOneEntryV1};

use crate::NoMemory;
use crate::fault::EntryFault;
use crate::read::{entries_law, read_entry_with};
use history_model::Entry;
use line_text::Names;
use std::alloc::Global;

/// The entry that the text spells in version 1, in which a setting has no least length, which is 1 then; `NotEntry` exactly
/// where it spells none.
///
/// Linear in the text, and takes memory in proportion to it. Who reads many shares their names by
/// [`read_entry_v1_with`].
pub fn read_entry_v1(alloc: Global, text: &[u8]) -> Result<Entry, EntryFault>
    ensures spelt { IfOk result (λ entry. SpellsV1 text.now entry) }
    ensures none { result ≡ Err EntryFault.NotEntry → (e : AnEntry) → ¬ SpellsV1 text.now e }
{
    read_entry_v1_with(alloc, &mut Names::new(alloc, 8), text)
}

/// As [`read_entry_v1`], but names that are kept are shared.
pub fn read_entry_v1_with(
    alloc: Global,
    names: &mut Names,
    text: &[u8],
) -> Result<Entry, EntryFault>
    ensures spelt { IfOk result (λ entry. SpellsV1 text.now entry) }
    ensures none { result ≡ Err EntryFault.NotEntry → (e : AnEntry) → ¬ SpellsV1 text.now e }
{
    entries_law();
    if !begins_setting(text) {
        return read_entry_with(alloc, names, text);
    }
    let longer = with_length(alloc, text)?;
    let entry = read_entry_with(alloc, names, longer.as_slice())?;
    if !is_of_v1(&entry) {
        return Err(EntryFault::NotEntry);
    }
    Ok(entry)
}

// The text with the least length 1 behind it, as version 2 has it.
fn with_length(alloc: Global, text: &[u8]) -> Result<Vec<u8>, NoMemory>
    ensures { IfOk result (λ longer. longer.items ≡ text.now ++ codes " 1") }
{
    let mut longer = Vec::from_slice(alloc, text)?;
    longer.extend_from_slice(b" 1")?;
    Ok(longer)
}

// Whether the text is that of a setting, if it is one of an entry: no other kind's word begins so.
fn begins_setting(text: &[u8]) -> bool
    ensures yes { IsTrue result → slice_index_or text.now 0 0 ≡ 116 }
    ensures no { IsFalse result → slice_index_or text.now 0 0 ≢ 116 }
{
    !text.is_empty() && text[0] == b't'
}

// Whether a setting's least length is 1.
fn is_of_v1(entry: &Entry) -> bool
    ensures yes { IsTrue result → IsOfV1 entry.now }
    ensures no { IsFalse result → ¬ IsOfV1 entry.now }
{
    match entry {
        Entry::Tune { length, .. } => *length == 1,
        _ => true,
    }
}

/// No text spells two entries in version 1. Does nothing: its contract is what it is for.
pub fn entries_v1_law()
    ensures { IsOneEntryV1 }
{
    entries_law();
}
