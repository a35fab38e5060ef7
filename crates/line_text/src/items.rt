//! Lists that contracts see as lists.
ghost use Rattle.std.specs.Prelude.{◌≡◌, ◌↔◌, IsTrue, List, [], ◌∷◌, ◌++◌, length, OnOk, OnErr, slice_get, option_copied};

use crate::NoMemory;
use crate::duplicate::Duplicate;
use std::alloc::Global;
use std::marker::Model;

/// A list. Contracts see the list. It keeps its allocator.
#[derive(Debug, Drop)]
pub struct Items<T> {
    items: Vec<T>,
}

impl<T> Model for Items<T> {
    ghost use Rattle.std.specs.Prelude.{List};

    ghost Value = { List T };

    ghost view = { λ n. n.items.items };
}

/// A list of whole numbers of 64 bits.
pub type Numbers = Items<u64>;

impl<T: Drop> Items<T> {
    /// The list of a vector's items. Takes no memory.
    pub fn of(items: Vec<T>) -> Items<T>
        ensures { result ≡ items.items }
    {
        Items { items }
    }

    /// The empty list.
    pub fn new(alloc: Global) -> Items<T>
        ensures { result ≡ [] }
    {
        Items {
            items: Vec::new(alloc),
        }
    }

    /// Adds an item at the end; changes nothing where there is no memory.
    pub fn push(&mut self, item: T) -> Result<(), NoMemory>
        ensures ok { OnOk result (self.new ≡ self.old ++ item ∷ []) }
        ensures err { OnErr result (self.new ≡ self.old) }
    {
        self.items.push(item)?;
        Ok(())
    }

    /// The items, in order.
    pub fn as_slice(&self) -> &[T]
        ensures { result.now ≡ self.now }
    {
        &self.items
    }

    /// How many items there are.
    pub fn len(&self) -> usize
        ensures { result ≡ length self.now }
    {
        self.items.len()
    }

    /// Whether there is none.
    pub fn is_empty(&self) -> bool
        ensures { IsTrue result ↔ (self.now ≡ []) }
    {
        self.items.is_empty()
    }

    /// The item at a place, from 0; none from the length on.
    pub fn get(&self, i: usize) -> Option<&T>
        ensures { option_copied result ≡ slice_get self.now i }
    {
        self.items.get(i)
    }

    /// The vector of the items. Takes no memory.
    pub fn into_vec(self) -> Vec<T>
        ensures { result.items ≡ self }
    {
        self.items
    }
}

/// An equal list of its own. Takes one block of memory and what a clone of each item takes. Linear in the length.
impl<T: Duplicate> Clone for Items<T> {
    ghost is_clone = { λ list clone. clone ≡ list };

    fn clone(&self) -> Result<Items<T>, NoMemory> {
        Ok(Items {
            items: T::duplicates(*self.items.allocator(), &self.items)?,
        })
    }
}

impl<T: Duplicate> Duplicate for Items<T> {
    fn copy(&self, _alloc: Global) -> Result<Items<T>, NoMemory> {
        self.clone()
    }
}
