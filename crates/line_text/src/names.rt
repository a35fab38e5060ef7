//! Names that have been met, so that one that comes again is shared.
ghost use Rattle.std.specs.Prelude.{◌≡◌, ◌≢◌, ℕ, List, IfOk, IfSome, OnOk};
ghost use Rattle.line_text.specs.Names.{IsName, Spells};

use crate::NoMemory;
use crate::escapes::decoded;
use crate::kept::Kept;
use crate::name::{Name, NameError};
use std::alloc::Global;
use std::borrow::CowSlice;
use std::hash::{FoldHasher, Hasher};

/// Names that have been met: one that comes again shares its text with the one that is kept here, and takes no memory.
///
/// A name is kept at a place by its hash, and what comes first stays there, so that names that never come again cost next
/// to nothing. What is kept makes no difference to any answer, and contracts don't see it.
#[derive(Drop)]
pub struct Names {
    // Made for the first name.
    places: Vec<Option<Kept>>,
    count: usize,
    // For each length modulo 16, the hash of the last text of such a length that a word stood for.
    last: [u64; 16],
}

impl Names {
    /// No names yet, with so many places for them, best a power of two. They are made for the first name.
    pub fn new(alloc: Global, count: usize) -> Names {
        Names {
            places: Vec::new(alloc),
            count,
            last: [0; 16],
        }
    }

    /// The name that a text is, as [`Name::of_str`] says. Linear in the length; takes no memory for a name that is kept.
    pub fn name_of(&mut self, alloc: Global, text: &str) -> Result<Name, NameError>
        ensures same { IfOk result (λ name. name ≡ text.now) }
        ensures named { OnOk result (IsName text.now) }
        ensures bad { result ≡ Err NameError.BadName → ¬ IsName text.now }
    {
        self.name_with(alloc, hash_of(text), text)
    }

    /// The name that a word spells, as [`read_name`](crate::read_name) says. Linear in the length of the word; takes no
    /// memory for a name that is kept, where no byte is escaped. Such a word is only compared where it comes again before
    /// another of its length.
    pub fn read(&mut self, alloc: Global, word: &[u8]) -> Result<Name, NameError>
        ensures spelt { IfOk result (λ name. Spells word.now name) }
        ensures bad { result ≡ Err NameError.BadName → (name : List ℕ) → ¬ Spells word.now name }
    {
        if let Some(name) = self.again(word) {
            return shared(alloc, name);
        }
        match decoded(alloc, word)? {
            CowSlice::Borrowed(bytes) => self.name_of_bytes(alloc, bytes),
            CowSlice::Owned(bytes) => self.name_of_bytes(alloc, &bytes),
        }
    }

    // The name that was read last of a word of this length, if the word is its own bytes, which spell it.
    fn again(&self, word: &[u8]) -> Option<&Name>
        ensures { IfSome result (λ name. Spells word.now name.now) }
    {
        match self.at(self.last[word.len() % 16]) {
            Some(kept) if kept.is_word(word) => Some(kept.name()),
            _ => None,
        }
    }

    // The name that the bytes are, which a word spells.
    fn name_of_bytes(&mut self, alloc: Global, bytes: &[u8]) -> Result<Name, NameError>
        ensures same { IfOk result (λ name. name ≡ bytes.now) }
        ensures named { OnOk result (IsName bytes.now) }
        ensures bad { result ≡ Err NameError.BadName → ¬ IsName bytes.now }
    {
        match str::from_utf8(bytes) {
            Ok(text) => {
                let hash = hash_of(text);
                self.last[text.len() % 16] = hash;
                self.name_with(alloc, hash, text)
            }
            Err(_) => Err(NameError::BadName),
        }
    }

    // The name that a text with this hash is.
    fn name_with(&mut self, alloc: Global, hash: u64, text: &str) -> Result<Name, NameError>
        ensures same { IfOk result (λ name. name ≡ text.now) }
        ensures named { OnOk result (IsName text.now) }
        ensures bad { result ≡ Err NameError.BadName → ¬ IsName text.now }
    {
        if let Some(name) = self.kept(hash, text) {
            return shared(alloc, name);
        }
        let name = Name::of_str(alloc, text)?;
        if self.keep(alloc, hash, &name).is_err() {
            return Err(NameError::NoMemory);
        }
        Ok(name)
    }

    // The place of a hash.
    fn place_of(&self, hash: u64) -> usize {
        hash as usize & self.places.len().wrapping_sub(1)
    }

    // What is kept at the place of a hash.
    fn at(&self, hash: u64) -> Option<&Kept> {
        match self.places.get(self.place_of(hash)) {
            Some(Some(kept)) => Some(kept),
            _ => None,
        }
    }

    // The name of a text with this hash, if it is kept.
    fn kept(&self, hash: u64, text: &str) -> Option<&Name>
        ensures same { IfSome result (λ name. name.now ≡ text.now) }
        ensures named { IfSome result (λ name. IsName text.now) }
    {
        match self.at(hash) {
            Some(kept) if kept.is_text(hash, text) => {
                kept.name().bytes_law();
                Some(kept.name())
            }
            _ => None,
        }
    }

    // Keeps a name with this hash, if its place is free.
    fn keep(&mut self, alloc: Global, hash: u64, name: &Name) -> Result<(), NoMemory> {
        self.make_places()?;
        let place = self.place_of(hash);
        if let Some(free) = self.places.get_mut(place) {
            if free.is_none() {
                *free = Some(Kept::new(name.clone()?, hash));
            }
        }
        Ok(())
    }

    // Makes the places, if there are none yet.
    fn make_places(&mut self) -> Result<(), NoMemory> {
        if !self.places.is_empty() {
            return Ok(());
        }
        self.places.reserve(self.count)?;
        for _ in 0..self.count {
            self.places.push(None)?;
        }
        Ok(())
    }
}

// A name that is kept, once more.
fn shared(alloc: Global, name: &Name) -> Result<Name, NameError>
    ensures same { IfOk result (λ made. made ≡ name.now) }
    ensures never_bad { result ≢ Err NameError.BadName }
{
    match name.clone() {
        Ok(made) => Ok(made),
        Err(_) => Err(NameError::NoMemory),
    }
}

fn hash_of(text: &str) -> u64 {
    let mut hasher = FoldHasher::default();
    hasher.write(text.as_bytes());
    hasher.finish()
}
