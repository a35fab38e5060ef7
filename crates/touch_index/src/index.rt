//! The marks of series, in their order.
ghost use Rattle.std.specs.{Prelude.{◌≡◌, ◌<◌, [], if◌then◌else◌, IfOk, IfSome, IfNone, OnOk, OnErr, IsSome, Some, None, length}, Ordering.is_eq};
ghost use Rattle.touch_index.specs.{Marks.{Entries, key_cmp, mark_of, touched_mark, with_claim, IsFirstFree, NoneIsFree}, Free.first_free, declared.key.SeriesKey.SeriesKey};

use crate::NoMemory;
use crate::key::SeriesKey;
use crate::mark::{Claim, Mark};
use line_text::Duplicate;
use name_index::OrderedMap;
use std::alloc::Global;
use std::marker::Model;

/// The marks of series, in order of test and metric.
#[derive(Drop)]
pub struct TouchIndex(OrderedMap<SeriesKey, Mark>);

impl Model for TouchIndex {
    ghost use Rattle.touch_index.specs.Marks.{Entries};

    ghost Value = { Entries };

    ghost view = { λ t. t.0 };
}

impl TouchIndex {
    /// No marks. The value keeps its allocator.
    pub fn new(alloc: Global) -> TouchIndex
        ensures { result ≡ [] }
    {
        TouchIndex(OrderedMap::new(alloc))
    }

    /// The mark of a series. Logarithmic time; takes no memory.
    pub fn get(&self, key: &SeriesKey) -> Option<Mark>
        ensures { result ≡ mark_of key.now self.now }
    {
        self.0.get(key).copied()
    }

    /// Gives a series this mark; changes nothing where there is no memory. Logarithmic time.
    pub fn put(&mut self, key: &SeriesKey, mark: Mark) -> Result<(), NoMemory>
        ensures ok { OnOk result ((q : SeriesKey) → mark_of q self.new
            ≡ (if is_eq (key_cmp key.now q) then Some mark else mark_of q self.old)) }
        ensures err { OnErr result (self.new ≡ self.old) }
    {
        self.0.put(key, mark)
    }

    /// An entry touched the series in this step. Logarithmic time.
    pub fn touch(&mut self, key: &SeriesKey, step: u64) -> Result<(), NoMemory>
        ensures ok { OnOk result ((q : SeriesKey) → mark_of q self.new
            ≡ (if is_eq (key_cmp key.now q) then Some (touched_mark step (mark_of key.now self.old))
            else mark_of q self.old)) }
        ensures err { OnErr result (self.new ≡ self.old) }
    {
        let mark = Mark::touched(self.get(key), step);
        self.put(key, mark)
    }

    /// Gives a series that has a mark this claim. Logarithmic time; takes no memory.
    pub fn set_claim(&mut self, key: &SeriesKey, claim: Claim)
        ensures { (q : SeriesKey) → mark_of q self.new
            ≡ (if is_eq (key_cmp key.now q) then with_claim claim (mark_of key.now self.old)
            else mark_of q self.old) }
    {
        if let Some(mark) = self.0.get_mut(key) {
            mark.claim = claim;
            return;
        }
    }

    /// Takes the mark of a series away. Logarithmic time; takes no memory.
    pub fn remove(&mut self, key: &SeriesKey)
        ensures marks { (q : SeriesKey) → mark_of q self.new
            ≡ (if is_eq (key_cmp key.now q) then None else mark_of q self.old) }
        ensures shorter { IsSome (mark_of key.now self.old) → length self.new < length self.old }
    {
        self.0.remove(key);
    }

    /// The first series that has a mark and that nobody works on, with the step of its last touch. Linear in the claims that
    /// stand before it.
    pub fn first_free(&self) -> Result<Option<(SeriesKey, u64)>, NoMemory>
        ensures some { IfOk result (λ o. IfSome o (λ found. IsFirstFree self.now found.0 found.1)) }
        ensures none { IfOk result (λ o. IfNone o (NoneIsFree self.now)) }
    {
        let first = self.find_free()?;
        if self.0.entries().len() == 0 {
            return Ok(None);
        }
        Ok(first)
    }

    // The first in the list of all.
    fn find_free(&self) -> Result<Option<(SeriesKey, u64)>, NoMemory>
        ensures found { IfOk result (λ o. o ≡ first_free self.now) }
    {
        for (key, mark) in self.0.entries() {
            if let Claim::Free = mark.claim {
                return Ok(Some((key.copy(self.0.allocator())?, mark.touched)));
            }
        }
        Ok(None)
    }
}
