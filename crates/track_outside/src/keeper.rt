//! The trait of what keeps rows.
ghost use Rattle.std.specs.Prelude.{◌≡◌, ℕ, ◌-◌, ◌≤◌, List, Option, Some, length, slice_get, IfOk, IfSome, OnOk, OnErr};
ghost use Rattle.track_outside.specs.{Counts.Rose, Kept.{bytes_of, with_more, with_name}};
ghost use Rattle.track_outside.specs.declared.out_error.OutError.TheVariants as error;

use crate::out_error::OutError;
use crate::source::Failed;
use std::alloc::Global;

/// Something that keeps rows of bytes, under a name that it is started with.
pub trait Keeper {
    /// The rows that it keeps, where it tells them.
    ghost kept: { Self → Option (List (List ℕ)) };

    /// The names that it was started with, in order, where it tells them.
    ghost started: { Self → Option (List (List ℕ)) };

    /// How often it failed.
    ghost faults: { Self → ℕ };

    /// Opens the store of that name. Leaves the rows.
    fn start(&mut self, alloc: Global, name: &str) -> Result<(), OutError>
        ensures rows { kept self.new ≡ kept self.old }
        ensures named { started self.new ≡ with_name result name.now (started self.old) }
        ensures counts { faults self.old ≤ faults self.new }
        ensures rose { result ≡ Err error.Failed → Rose (faults self.old) (faults self.new) };

    /// How many rows it keeps.
    fn count(&mut self) -> Result<u64, Failed>
        ensures told { IfOk result (λ n. IfSome (kept self.old) (λ rows. n ≡ length rows)) }
        ensures rows { kept self.new ≡ kept self.old }
        ensures named { started self.new ≡ started self.old }
        ensures counts { faults self.old ≤ faults self.new }
        ensures rose { OnErr result (Rose (faults self.old) (faults self.new)) };

    /// Row k, from 1. Where the rows are told, k is the number of one of them.
    fn row(&mut self, alloc: Global, k: u64) -> Result<Vec<u8>, OutError>
        requires { IfSome (kept self.old) (λ rows. (1 ≤ k) × (k ≤ length rows)) }
        ensures told { IfOk result (λ bytes.
            IfSome (kept self.old) (λ rows. slice_get rows (k - 1) ≡ Some bytes.items)) }
        ensures rows { kept self.new ≡ kept self.old }
        ensures named { started self.new ≡ started self.old }
        ensures counts { faults self.old ≤ faults self.new }
        ensures rose { result ≡ Err error.Failed → Rose (faults self.old) (faults self.new) };

    /// Adds all of the rows, in order, or none.
    fn append(&mut self, alloc: Global, rows: &[Vec<u8>]) -> Result<(), OutError>
        ensures all { OnOk result (kept self.new ≡ with_more (kept self.old) (bytes_of rows.now)) }
        ensures none { OnErr result (kept self.new ≡ kept self.old) }
        ensures named { started self.new ≡ started self.old }
        ensures counts { faults self.old ≤ faults self.new }
        ensures rose { result ≡ Err error.Failed → Rose (faults self.old) (faults self.new) };
}
