//! Whether entries are the same.
ghost use Rattle.std.specs.Prelude.{◌≡◌, ◌↔◌, IfOk, IsTrue};
ghost use Rattle.track_entry.specs.Texts.{IsEntry};

use crate::NoMemory;
use history_model::Entry;
use std::alloc::Global;
use track_entry::{entries_law, put_entry};

/// Whether two entries that lines can say are the same. Linear in their texts.
pub fn is_same_entry(alloc: Global, one: &Entry, other: &Entry) -> Result<bool, NoMemory>
    ensures { IfOk result (λ same. IsEntry one.now → IsEntry other.now
        → (IsTrue same ↔ (one.now ≡ other.now))) }
{
    entries_law();
    let mut text = Vec::new(alloc);
    put_entry(alloc, &mut text, one)?;
    let mut more = Vec::new(alloc);
    put_entry(alloc, &mut more, other)?;
    Ok(text.as_slice() == more.as_slice())
}
