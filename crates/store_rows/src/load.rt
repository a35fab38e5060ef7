//! Rows that are read from a keeper, one after another.
ghost use Rattle.std.specs.Prelude.{◌≡◌, ◌≢◌, ℕ, ◌≤◌, [], ◌∷◌, length, IfSome, OnOk};
ghost use Rattle.track_outside.specs.{Counts.Rose, Kept.with_more};
ghost use Rattle.store_rows.specs.{Faults.{MayHaveName, load_fault}, Laws.{IsDetermined, HasOneOutcome}, Loading.{LeadsTo, IsBad, Takes, IsRefused}};
ghost use Rattle.store_rows.specs.declared.load.LoadFault.TheVariants as fault;

use crate::restored::Restored;
use std::alloc::Global;
use track_outside::{Keeper, OutError};

/// Why rows were not loaded.
#[derive(Clone, Copy, Debug, PartialEq, Eq)]
pub enum LoadFault {
    /// The keeper failed.
    KeepFault,
    /// This row, counted from 1, is the first that stands for nothing.
    BadRow(u64),
    /// There was no memory for them.
    NoMemory,
}

impl From<OutError> for LoadFault {
    ghost from_gives = { λ e f. f ≡ load_fault e };

    fn from(error: OutError) -> LoadFault {
        match error {
            OutError::Failed => LoadFault::KeepFault,
            OutError::NoMemory => LoadFault::NoMemory,
        }
    }
}

/// Starts the keeper under a name and takes its rows into a value, from the first to the last, each read once. Where it
/// doesn't answer Ok, the value has taken some of them.
pub fn load_into<K: Keeper, S: Restored>(
    alloc: Global,
    keeper: &mut K,
    name: &str,
    value: &mut S,
) -> Result<(), LoadFault>
    ensures loaded { OnOk result (IfSome (K.kept keeper.old) (λ rows.
        LeadsTo S.does value.old rows value.new)) }
    ensures bad { (k : ℕ) → result ≡ Err (fault.BadRow k) →
        IfSome (K.kept keeper.old) (λ rows. IsBad S.does value.old rows k) }
    ensures rows { K.kept keeper.new ≡ K.kept keeper.old }
    ensures named { result ≢ Err fault.NoMemory →
        K.started keeper.new ≡ with_more (K.started keeper.old) (name.now ∷ []) }
    ensures once { MayHaveName name.now (K.started keeper.old) (K.started keeper.new) }
    ensures counts { K.faults keeper.old ≤ K.faults keeper.new }
    ensures rose { result ≡ Err fault.KeepFault → Rose (K.faults keeper.old) (K.faults keeper.new) }
{
    keeper.start(alloc, name)?;
    let Ok(count) = keeper.count() else {
        return Err(LoadFault::KeepFault);
    };
    for k in 0..count {
        take_row(alloc, keeper, k + 1, value)?;
    }
    Ok(())
}

// Takes row k, from 1.
fn take_row<K: Keeper, S: Restored>(
    alloc: Global,
    keeper: &mut K,
    k: u64,
    value: &mut S,
) -> Result<(), LoadFault>
    requires { IfSome (K.kept keeper.old) (λ rows. (1 ≤ k) × (k ≤ length rows)) }
    ensures taken { OnOk result (IfSome (K.kept keeper.old) (λ rows.
        Takes S.does value.old rows k value.new)) }
    ensures bad { (j : ℕ) → result ≡ Err (fault.BadRow j) →
        (j ≡ k) × IfSome (K.kept keeper.old) (λ rows. IsRefused S.does value.old rows k) }
    ensures rows { K.kept keeper.new ≡ K.kept keeper.old }
    ensures named { K.started keeper.new ≡ K.started keeper.old }
    ensures counts { K.faults keeper.old ≤ K.faults keeper.new }
    ensures rose { result ≡ Err fault.KeepFault → Rose (K.faults keeper.old) (K.faults keeper.new) }
{
    let row = keeper.row(alloc, k)?;
    match value.take(alloc, &row) {
        Ok(true) => Ok(()),
        Ok(false) => Err(LoadFault::BadRow(k)),
        Err(_) => Err(LoadFault::NoMemory),
    }
}

/// Where a row leads from a value to one other at most, rows have one outcome at most. Does nothing: its contract is what it
/// is for.
pub fn loading_law<S: Restored>()
    ensures { IsDetermined S.does → HasOneOutcome S.does }
{}
