//! The index of commits: look-ups, declarations, and the numbers in a range.
ghost use Rattle.std.specs.Prelude.{◌≡◌, ◌≢◌, ◌++◌, ◌∷◌, [], OnOk, OnErr, IfOk, length, find, option_copied, None};
ghost use Rattle.history_model.specs.Commits.{has_number, has_name, number_in, name_in, numbers_between};
ghost use Rattle.order_index.specs.{Judged.{judged, AreApart}, Kept.AreFound};

use crate::NoMemory;
use crate::declared::Declared;
use crate::mapped::{self, keys_between, places_of};
use crate::rising::{self, is_above_all};
use history_model::Declaration;
use line_text::{Duplicate, Name, Numbers};
use metric_table::Limit;
use name_index::NameIndex;
use std::alloc::Global;
use std::collections::BTreeMap;
use std::marker::Model;

/// The commits that were declared.
#[derive(Drop)]
pub struct OrderIndex {
    alloc: Global,
    commits: Vec<Declaration>,
    // Their names, each at the place of its declaration.
    names: NameIndex,
    // Where the declaration of a number stands. None as long as each number is above the one before: a declaration is then
    // found by halving.
    by_number: Option<BTreeMap<u64, usize>>,
}

impl Model for OrderIndex {
    ghost use Rattle.std.specs.Prelude.{List};
    ghost use Rattle.history_model.specs.declared.entries.Declaration.{Declaration};

    ghost Value = { List Declaration };

    ghost use Rattle.order_index.specs.Kept.{Keeps};

    ghost view = { λ o. o.commits.items };

    ghost invariant = { λ o. Keeps o.commits.items o.names o.by_number };
}

impl OrderIndex {
    /// No commits. The value keeps its allocator.
    pub fn new(alloc: Global) -> OrderIndex
        ensures { result ≡ [] }
    {
        OrderIndex {
            alloc,
            commits: Vec::new(alloc),
            names: NameIndex::new(alloc),
            by_number: None,
        }
    }

    /// Says what the type keeps: no number and no name is declared twice. Does nothing: its contract is what it is for.
    pub fn pairs_law(&self)
        ensures { AreApart self.now }
    {
        let _ = &self.commits;
    }

    /// How many commits there are.
    pub fn len(&self) -> usize
        ensures { result ≡ length self.now }
    {
        self.commits.len()
    }

    /// The declaration with this number. Constant time where numbers rise and this one is above them, else logarithmic;
    /// takes no memory.
    pub fn with_number(&self, number: u64) -> Option<&Declaration>
        ensures { option_copied result ≡ find (has_number number) self.now }
    {
        match &self.by_number {
            Some(by_number) => mapped::with_number(&self.commits, by_number, number),
            None => rising::with_number(&self.commits, number),
        }
    }

    /// The declaration with this name. Linear in the name's length, and at worst logarithmic in the count of commits; takes
    /// no memory.
    pub fn with_name(&self, name: &Name) -> Option<&Declaration>
        ensures { option_copied result ≡ find (has_name name.now) self.now }
    {
        match self.names.place_of(name) {
            Some(place) => Some(&self.commits[place]),
            None => None,
        }
    }

    /// The number of the commit of that name; none exactly where it isn't declared. Takes the time of
    /// [`OrderIndex::with_name`] and no memory.
    pub fn number_of(&self, name: &Name) -> Option<u64>
        ensures { result ≡ number_in name.now self.now }
    {
        match self.with_name(name) {
            Some(declaration) => Some(declaration.number),
            None => None,
        }
    }

    /// The name of the commit of that number; none exactly where it isn't declared. Takes the time of
    /// [`OrderIndex::with_number`] and no memory.
    pub fn name_of(&self, number: u64) -> Option<&Name>
        ensures { option_copied result ≡ name_in number self.now }
    {
        match self.with_number(number) {
            Some(declaration) => Some(&declaration.name),
            None => None,
        }
    }

    /// The declared numbers from `lo` to `hi` in rising order. Linear in their count, but for a search of logarithmic time.
    pub fn between(&self, alloc: Global, lo: u64, hi: u64) -> Result<Numbers, NoMemory>
        ensures { IfOk result (λ made. made ≡ numbers_between lo hi self.now) }
    {
        if hi < lo {
            return Ok(Numbers::new(alloc));
        }
        match &self.by_number {
            Some(by_number) => keys_between(alloc, by_number, lo, hi),
            None => rising::numbers_between(alloc, &self.commits, lo, hi),
        }
    }

    /// What a declaration of the pair would come to. Takes the time of [`OrderIndex::with_number`] and
    /// [`OrderIndex::with_name`], and no memory.
    pub fn judge(&self, number: u64, name: &Name) -> Declared
        ensures { result ≡ judged self.now number name.now }
    {
        if let Some(there) = self.with_number(number) {
            if there.name == *name {
                return Declared::Same(there.step);
            }
            return Declared::Taken(there.number);
        }
        if let Some(there) = self.with_name(name) {
            return Declared::Taken(there.number);
        }
        if self.commits.len() as u64 >= Limit::Commits.most() {
            return Declared::Full;
        }
        Declared::New
    }

    /// Declares the pair at a step, where it is new; else, and where there is no memory, changes nothing.
    ///
    /// Takes the time of [`OrderIndex::judge`] and [`OrderIndex::add`].
    pub fn declare(&mut self, step: u64, number: u64, name: Name) -> Result<Declared, NoMemory>
        ensures judged { IfOk result (λ declared. declared ≡ judged self.old number name) }
        ensures new { result ≡ Ok Declared.New
            → self.new ≡ self.old ++ record { step = step; number = number; name = name } ∷ [] }
        ensures same { result ≢ Ok Declared.New → self.new ≡ self.old }
    {
        let declared = self.judge(number, &name);
        if declared != Declared::New {
            return Ok(declared);
        }
        self.add(step, number, name)?;
        Ok(Declared::New)
    }

    /// Declares a pair that is new, as [`OrderIndex::declare`] does, without judging it again.
    ///
    /// Takes the time of [`OrderIndex::with_name`], and logarithmic time where a number is not above the last one's, both
    /// amortized. The first such number puts each declaration into a map, once.
    pub fn add(&mut self, step: u64, number: u64, name: Name) -> Result<(), NoMemory>
        requires { judged self.old number name ≡ Declared.New }
        ensures ok { OnOk result
            (self.new ≡ self.old ++ record { step = step; number = number; name = name } ∷ []) }
        ensures err { OnErr result (self.new ≡ self.old) }
    {
        let key = name.copy(self.alloc)?;
        let declaration = Declaration { step, number, name };
        self.commits.reserve(1)?;
        note(self.alloc, &self.commits, &mut self.by_number, &declaration)?;
        if let Err(_) = self.names.insert(key) {
            forget(&self.commits, &mut self.by_number, &declaration);
            return Err(NoMemory);
        }
        self.commits.push_reserved(declaration);
        Ok(())
    }
}

// Makes a declaration that comes next found by its number: in the map, which is made at the first number that isn't above
// the last one. Until then there is nothing to note.
fn note(
    alloc: Global,
    commits: &[Declaration],
    by_number: &mut Option<BTreeMap<u64, usize>>,
    declaration: &Declaration,
) -> Result<(), NoMemory>
    requires found { AreFound commits.now by_number.old }
    requires new { find (has_number declaration.now.number) commits.now ≡ None }
    ensures ok { OnOk result (AreFound (commits.now ++ declaration.now ∷ []) by_number.new) }
    ensures err { OnErr result (AreFound commits.now by_number.new) }
{
    let number = declaration.number;
    let place = commits.len();
    if let Some(places) = by_number {
        places.insert(number, place)?;
        return Ok(());
    }
    if is_above_all(commits, number) {
        return Ok(());
    }
    let mut places = places_of(alloc, commits)?;
    places.insert(number, place)?;
    *by_number = Some(places);
    Ok(())
}

// Undoes [`note`], where the declaration doesn't come after all. Takes no memory.
fn forget(
    commits: &[Declaration],
    by_number: &mut Option<BTreeMap<u64, usize>>,
    declaration: &Declaration,
)
    requires found { AreFound (commits.now ++ declaration.now ∷ []) by_number.old }
    requires new { find (has_number declaration.now.number) commits.now ≡ None }
    ensures { AreFound commits.now by_number.new }
{
    if let Some(places) = by_number {
        places.remove(&declaration.number);
        return;
    }
}
