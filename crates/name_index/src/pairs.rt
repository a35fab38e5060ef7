//! What belongs to pairs of names.
ghost use Rattle.std.specs.{Prelude.{◌≡◌, ℕ, List, [], OnOk, OnErr, option_copied, Some}, Option.option_copied_mut};
ghost use Rattle.name_index.specs.Pairs.{found_pair, IsPairWritten};

use crate::NoMemory;
use crate::map::OrderedMap;
use line_text::Name;
use std::alloc::Global;
use std::marker::Model;

/// Pairs of names in their order, and what belongs to each. Contracts see, of each first name, its second ones. It keeps
/// its allocator. Look-ups are logarithmic.
// A leaf of an ordered map has room for 15 values, so small ones are best there.
#[derive(Drop)]
pub struct PairMap<T>(OrderedMap<Name, OrderedMap<Name, T>>);

impl<T> Model for PairMap<T> {
    ghost use Rattle.name_index.specs.Pairs.{Pairs};

    ghost Value = { Pairs T };

    ghost view = { λ m. m.0 };
}

impl<T: Drop> PairMap<T> {
    ghost use Rattle.std.specs.Borrow.{sem};
    ghost use Rattle.name_index.specs.PairLent.{LendsPair};

    /// No pairs.
    pub fn new(alloc: Global) -> PairMap<T>
        ensures { result ≡ [] }
    {
        PairMap(OrderedMap::new(alloc))
    }

    /// The allocator that it keeps.
    pub fn allocator(&self) -> Global {
        self.0.allocator()
    }

    /// What belongs to a pair. Takes no memory.
    pub fn get(&self, first: &Name, second: &Name) -> Option<&T>
        ensures { option_copied result ≡ found_pair first.now second.now self.now }
    {
        self.0.get(first)?.get(second)
    }

    /// The same, to be changed.
    pub fn get_mut(&mut self, first: &Name, second: &Name) -> Option<&mut T>
        ensures* writes_back { sem 𝓛 (LendsPair T.row self.entry first.now second.now result) }
        ensures value { option_copied_mut result ≡ found_pair first.now second.now self.old }
    {
        match self.0.get_mut(first) {
            Some(seconds) => seconds.get_mut(second),
            None => None,
        }
    }

    /// Gives a pair what belongs to it; what belongs to each pair stays where there is no memory.
    pub fn put(&mut self, first: &Name, second: &Name, value: T) -> Result<(), NoMemory>
        ensures ok { OnOk result (IsPairWritten first.now second.now (Some value) self.old self.new) }
        ensures err { OnErr result ((f s : List ℕ) → found_pair f s self.new ≡ found_pair f s self.old) }
    {
        if let Some(seconds) = self.0.get_mut(first) {
            return seconds.put(second, value);
        }
        let mut seconds = OrderedMap::new(self.0.allocator());
        seconds.put(second, value)?;
        self.0.put(first, seconds)
    }
}
