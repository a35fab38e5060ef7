//! Values of which equal ones can be made.
ghost use Rattle.std.specs.Prelude.{◌≡◌, IfOk};

use crate::NoMemory;
use std::alloc::Global;

/// A value of which an equal one can be made, where there is memory. So can one of a list of such values.
pub trait Duplicate: Drop + Sized {
    /// An equal value of its own. Costs what the type's `clone` costs.
    fn copy(&self, alloc: Global) -> Result<Self, NoMemory>
        ensures { IfOk result (λ made. made ≡ self.now) };

    /// Equal values of their own, in order. Takes one block of memory and what a copy of each takes. Linear in the length.
    fn duplicates(alloc: Global, items: &[Self]) -> Result<Vec<Self>, NoMemory>
        ensures { IfOk result (λ made. made.items ≡ items.now) }
    {
        let mut made = Vec::with_capacity(alloc, items.len())?;
        for item in items {
            made.push(item.copy(alloc)?)?;
        }
        Ok(made)
    }
}

/// What is `Copy` takes no memory, and a list of it is copied at once.
impl<T: Copy> Duplicate for T {
    fn copy(&self, _alloc: Global) -> Result<T, NoMemory> {
        Ok(*self)
    }

    fn duplicates(alloc: Global, items: &[T]) -> Result<Vec<T>, NoMemory> {
        Vec::from_slice(alloc, items)
    }
}
