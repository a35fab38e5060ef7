//! What belongs to keys, in the order of the keys.
ghost use Rattle.std.specs.Prelude.{◌≡◌, [], OnOk, OnErr, option_copied, IsSome, Some, None, length, ◌<◌};
ghost use Rattle.std.specs.Option.{option_copied_mut};
ghost use Rattle.name_index.specs.Found.{found, IsWritten};

use crate::NoMemory;
use line_text::Duplicate;
use std::alloc::Global;
use std::collections::BTreeMap;
use std::marker::Model;

/// Keys in their order, and what belongs to each. Contracts see the list of both. It keeps its allocator, and a copy of
/// each key. Look-ups are logarithmic.
#[derive(Drop)]
pub struct OrderedMap<K: Ord, T> {
    alloc: Global,
    tree: BTreeMap<K, T>,
}

impl<K: Ord, T> Model for OrderedMap<K, T> {
    ghost use Rattle.std.specs.Prelude.{List};

    ghost Value = { List (K × T) };

    ghost view = { λ m. m.tree.entries };
}

impl<K: Ord + Drop, T: Drop> OrderedMap<K, T> {
    ghost use Rattle.std.specs.Borrow.{sem};
    ghost use Rattle.name_index.specs.Lent.{LendsAt};

    /// No keys.
    pub fn new(alloc: Global) -> OrderedMap<K, T>
        ensures { result ≡ [] }
    {
        OrderedMap {
            alloc,
            tree: BTreeMap::new(alloc),
        }
    }

    /// What belongs to a key. Takes no memory.
    pub fn get(&self, key: &K) -> Option<&T>
        ensures { option_copied result ≡ found K.cmp key.now self.now }
    {
        self.tree.get(key)
    }

    /// The same, to be changed.
    pub fn get_mut(&mut self, key: &K) -> Option<&mut T>
        ensures* writes_back { sem 𝓛 (LendsAt K.row T.row K.Ord self.entry key.now result) }
        ensures value { option_copied_mut result ≡ found K.cmp key.now self.old }
    {
        self.tree.get_mut(key)
    }

    /// The allocator that it keeps.
    pub fn allocator(&self) -> Global {
        self.alloc
    }

    /// All keys with what belongs to them, in order.
    pub fn entries(&self) -> &BTreeMap<K, T>
        ensures { result.now.entries ≡ self.now }
    {
        &self.tree
    }

    /// Gives a key what belongs to it; changes nothing where there is no memory.
    pub fn put(&mut self, key: &K, value: T) -> Result<(), NoMemory>
    where
        K: Duplicate,
        ensures ok { OnOk result (IsWritten K.cmp key.now (Some value) self.old self.new) }
        ensures err { OnErr result (self.new ≡ self.old) }
    {
        let key = key.copy(self.alloc)?;
        self.tree.insert(key, value)?;
        Ok(())
    }

    /// Takes a key away. Takes no memory.
    pub fn remove(&mut self, key: &K)
        ensures gone { IsWritten K.cmp key.now None self.old self.new }
        ensures shorter { IsSome (found K.cmp key.now self.old) → length self.new < length self.old }
    {
        let _ = self.tree.remove(key);
    }
}
