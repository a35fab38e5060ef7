//! A name that is kept, and what tells whether it comes again.
ghost use Rattle.std.specs.Prelude.{◌≡◌, IsTrue};
ghost use Rattle.line_text.specs.Names.{Spells};

use crate::escapes::has_percent;
use crate::name::Name;
use std::marker::Model;

// A name that is kept, with the hash of its text. Contracts see the name.
#[derive(Drop)]
pub(crate) struct Kept {
    name: Name,
    hash: u64,
    // If not, no byte is `%`, and a word of the name's own bytes spells it.
    percent: bool,
}

impl Model for Kept {
    ghost use Rattle.std.specs.Prelude.{◌≡◌, ℕ, List, false};
    ghost use Rattle.line_text.specs.Names.{Spells};

    ghost Value = { List ℕ };

    ghost view = { λ k. k.name };

    ghost invariant = { λ k. k.percent ≡ false → Spells k.name k.name };
}

impl Kept {
    // The name, to be kept with this hash. Linear in the length; takes no memory.
    pub(crate) fn new(name: Name, hash: u64) -> Kept
        ensures { result ≡ name }
    {
        name.bytes_law();
        let percent = has_percent(name.as_str().as_bytes());
        Kept {
            name,
            hash,
            percent,
        }
    }

    // The name.
    pub(crate) fn name(&self) -> &Name
        ensures { result.now ≡ self.now }
    {
        &self.name
    }

    // Whether the name is a text with this hash.
    pub(crate) fn is_text(&self, hash: u64, text: &str) -> bool
        ensures { IsTrue result → self.now ≡ text.now }
    {
        self.hash == hash && self.name.as_str() == text
    }

    // Whether the word is the name's own bytes, and spells it.
    pub(crate) fn is_word(&self, word: &[u8]) -> bool
        ensures { IsTrue result → Spells word.now self.now }
    {
        !self.percent && self.name.as_str().as_bytes() == word
    }
}
