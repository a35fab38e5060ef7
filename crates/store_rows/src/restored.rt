//! What rows make, as reading them sees it.
ghost use Rattle.std.specs.Prelude.{◌≡◌, List, ℕ, IfOk, true, false};

use crate::NoMemory;
use std::alloc::Global;

/// What rows make: a value that each row changes, or can't be a row of.
pub trait Restored {
    /// What a row does.
    ghost does: { Self → List ℕ → Self → Type 0 };

    /// Takes a row, or answers false and leaves the value, exactly where it can do nothing.
    fn take(&mut self, alloc: Global, row: &[u8]) -> Result<bool, NoMemory>
        ensures taken { IfOk result (λ done. done ≡ true → does self.old row.now self.new) }
        ensures refused { IfOk result (λ done.
            done ≡ false → (after : Self) → ¬ does self.old row.now after) }
        ensures kept { IfOk result (λ done. done ≡ false → self.new ≡ self.old) };
}
