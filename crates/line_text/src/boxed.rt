//! Values in memory of their own, which contracts see as the values.
ghost use Rattle.std.specs.Prelude.{◌≡◌, IfOk};

use crate::NoMemory;
use crate::duplicate::Duplicate;
use std::alloc::Global;
use std::marker::Model;

/// A value in memory of its own, so that what has it is small and cheap to hand on. Contracts see the value.
#[derive(Debug, Drop)]
pub struct Boxed<T> {
    value: Box<T>,
}

impl<T> Model for Boxed<T> {
    ghost Value = { T };

    ghost view = { λ b. b.value.value };
}

impl<T: Drop> Boxed<T> {
    ghost use Rattle.std.specs.Borrow.{Lends, sem};
    ghost use Rattle.line_text.specs.contracts.boxed.Boxed.{the_row};

    /// The value, in memory of its own.
    pub fn new(alloc: Global, value: T) -> Result<Boxed<T>, NoMemory>
        ensures { IfOk result (λ made. made ≡ value) }
    {
        match Box::new(alloc, value) {
            Ok(value) => Ok(Boxed { value }),
            Err(_) => Err(NoMemory),
        }
    }

    /// The value.
    pub fn get(&self) -> &T
        ensures { result.now ≡ self.now }
    {
        self.value.as_ref()
    }

    /// The value, to be changed.
    pub fn get_mut(&mut self) -> &mut T
        ensures* writes_back { sem 𝓛 (Lends (the_row T.row) T.row self.entry result (λ w. w)) }
        ensures value { result.now ≡ self.old }
    {
        self.value.as_mut()
    }
}

/// An equal value in memory of its own, at the cost of the value's clone.
impl<T: Duplicate> Clone for Boxed<T> {
    ghost is_clone = { λ value clone. clone ≡ value };

    fn clone(&self) -> Result<Boxed<T>, NoMemory> {
        let alloc = *Box::allocator(&self.value);
        Boxed::new(alloc, self.get().copy(alloc)?)
    }
}

impl<T: Duplicate> Duplicate for Boxed<T> {
    fn copy(&self, _alloc: Global) -> Result<Boxed<T>, NoMemory> {
        self.clone()
    }
}
