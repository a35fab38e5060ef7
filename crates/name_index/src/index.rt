//! Names, and where each of them stands.
ghost use Rattle.std.specs.Prelude.{◌≡◌, ◌++◌, ◌∷◌, [], OnOk, OnErr, None, position, bytes_eq};

use crate::NoMemory;
use crate::places::Places;
use line_text::Name;
use std::alloc::Global;
use std::marker::Model;

/// Names in the order in which they came, each once.
#[derive(Drop)]
pub struct NameIndex {
    names: Vec<Name>,
    places: Places,
}

impl Model for NameIndex {
    ghost use Rattle.std.specs.Prelude.{ℕ, List};

    ghost Value = { List (List ℕ) };

    ghost use Rattle.name_index.specs.Placed.{AreFound, AreDistinct};

    ghost view = { λ x. x.names.items };

    ghost invariant = { λ x. AreFound x.names.items x.places × AreDistinct x.names.items };
}

impl NameIndex {
    /// No names. The value keeps its allocator.
    pub fn new(alloc: Global) -> NameIndex
        ensures { result ≡ [] }
    {
        NameIndex {
            names: Vec::new(alloc),
            places: Places::new(alloc),
        }
    }

    /// Where the name stands; none exactly where it isn't there. Linear in the name's length, and at worst logarithmic in
    /// the count of names; takes no memory.
    pub fn place_of(&self, name: &Name) -> Option<usize>
        ensures { result ≡ position (λ k. bytes_eq name.now k) self.now }
    {
        self.places.find(&self.names, name)
    }

    /// Puts a new name behind the others; changes nothing where there is no memory.
    ///
    /// Takes the time of [`NameIndex::place_of`], amortized.
    pub fn insert(&mut self, name: Name) -> Result<(), NoMemory>
        requires { position (λ k. bytes_eq name k) self.old ≡ None }
        ensures ok { OnOk result (self.new ≡ self.old ++ name ∷ []) }
        ensures err { OnErr result (self.new ≡ self.old) }
    {
        self.names.reserve(1)?;
        self.places.widen(&self.names)?;
        self.places.put(&name, self.names.len())?;
        self.names.push_reserved(name);
        Ok(())
    }
}
