//! Machines that are loaded from a keeper.
ghost use Rattle.std.specs.Prelude.{◌≡◌, ◌≢◌, ℕ, ◌≤◌, [], ◌∷◌, IfOk, IfSome};
ghost use Rattle.track_outside.specs.{Counts.Rose, Kept.with_more};
ghost use Rattle.store_rows.specs.Faults.{MayHaveName};
ghost use Rattle.store_rows.specs.declared.load.LoadFault.TheVariants as fault;
ghost use Rattle.keep_rows.specs.{Kept.AreKept, Loading.{LeadTo, IsFirstBad}};

use crate::loaded::Loaded;
use crate::states::States;
use std::alloc::Global;
use store_rows::{LoadFault, load_into};
use track_outside::Keeper;

/// Starts the keeper under a name, and gives the machines and the version that its rows lead to, each row read once. The
/// rows stay.
///
/// Linear in the bytes of the rows, beside what adding the entries to their states takes.
pub fn load<K: Keeper>(alloc: Global, keeper: &mut K, name: &str) -> Result<Loaded, LoadFault>
    ensures loaded { IfOk result (λ loaded. IfSome (K.kept keeper.old) (λ rows.
        LeadTo rows loaded)) }
    ensures kept { IfOk result (λ loaded. AreKept loaded.machines) }
    ensures bad { (k : ℕ) → result ≡ Err (fault.BadRow k) →
        IfSome (K.kept keeper.old) (λ rows. IsFirstBad rows k) }
    ensures rows { K.kept keeper.new ≡ K.kept keeper.old }
    ensures named { result ≢ Err fault.NoMemory →
        K.started keeper.new ≡ with_more (K.started keeper.old) (name.now ∷ []) }
    ensures once { MayHaveName name.now (K.started keeper.old) (K.started keeper.new) }
    ensures counts { K.faults keeper.old ≤ K.faults keeper.new }
    ensures rose { result ≡ Err fault.KeepFault → Rose (K.faults keeper.old) (K.faults keeper.new) }
{
    let mut states = States::new(alloc);
    load_into(alloc, keeper, name, &mut states)?;
    Ok(states.into_loaded())
}
