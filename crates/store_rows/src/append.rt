//! New rows that are added to a keeper, all at once.
ghost use Rattle.std.specs.Prelude.{◌≡◌, ◌++◌, ◌≤◌, ℕ, List, flat_map, OnOk, OnErr};
ghost use Rattle.track_outside.specs.{Counts.Rose, Kept.{bytes_of, with_more}};
ghost use Rattle.store_rows.specs.declared.append.AppendFault.TheVariants as fault;

use crate::NoMemory;
use std::alloc::Global;
use track_outside::{Keeper, OutError};

/// Why rows were not appended.
#[derive(Clone, Copy, Debug, PartialEq, Eq)]
pub enum AppendFault {
    /// The keeper failed.
    KeepFault,
    /// There was no memory for them.
    NoMemory,
}

/// What new rows are made of.
pub trait Recorded {
    /// Its new rows, in order.
    ghost new_rows: { Self → List (List ℕ) };

    /// Puts its new rows behind others.
    fn put_rows(&self, alloc: Global, out: &mut Vec<Vec<u8>>) -> Result<(), NoMemory>
        ensures { OnOk result
            (bytes_of out.new.items ≡ bytes_of out.old.items ++ new_rows self.now) };
}

/// Adds the new rows of each, in order, by one call of the keeper, also where there are none; or adds none. Linear in them.
pub fn append_each<K: Keeper, R: Recorded>(
    alloc: Global,
    keeper: &mut K,
    items: &[R],
) -> Result<(), AppendFault>
    ensures all { OnOk result
        (K.kept keeper.new ≡ with_more (K.kept keeper.old) (flat_map R.new_rows items.now)) }
    ensures none { OnErr result (K.kept keeper.new ≡ K.kept keeper.old) }
    ensures named { K.started keeper.new ≡ K.started keeper.old }
    ensures counts { K.faults keeper.old ≤ K.faults keeper.new }
    ensures rose { result ≡ Err fault.KeepFault → Rose (K.faults keeper.old) (K.faults keeper.new) }
{
    let mut rows = Vec::new(alloc);
    if put_each(alloc, &mut rows, items).is_err() {
        return Err(AppendFault::NoMemory);
    }
    match keeper.append(alloc, &rows) {
        Ok(()) => Ok(()),
        Err(OutError::Failed) => Err(AppendFault::KeepFault),
        Err(OutError::NoMemory) => Err(AppendFault::NoMemory),
    }
}

// The new rows of each, in order.
fn put_each<R: Recorded>(alloc: Global, out: &mut Vec<Vec<u8>>, items: &[R]) -> Result<(), NoMemory>
    ensures { OnOk result
        (bytes_of out.new.items ≡ bytes_of out.old.items ++ flat_map R.new_rows items.now) }
{
    for item in items {
        item.put_rows(alloc, out)?;
    }
    Ok(())
}
