//! The series of one test, by metric.
ghost use Rattle.std.specs.{Prelude.{◌≡◌, ℕ, List, [], if◌then◌else◌, IfOk, OnOk, OnErr, option_copied}, Map.lookup};
ghost use Rattle.series_index.specs.Seen.{is_same, seen_of, with_sample, taken_out, HasRoom};

use crate::NoMemory;
use crate::tracked::Tracked;
use line_text::{Boxed, Duplicate, Name};
use point_list::FrozenPoints;
use std::alloc::Global;
use std::collections::BTreeMap;
use std::marker::Model;

// The metrics of one test, in order. A leaf of an ordered map has room for 15 values, so small ones are best there.
#[derive(Drop)]
pub struct MetricIndex {
    alloc: Global,
    pub(crate) entries: BTreeMap<Name, Boxed<Tracked>>,
}

impl Model for MetricIndex {
    ghost use Rattle.std.specs.Prelude.{ℕ, List};
    ghost use Rattle.series_index.specs.declared.tracked.Tracked.{Tracked};

    ghost Value = { List (List ℕ × Tracked) };

    ghost view = { λ m. m.entries.entries };
}

impl MetricIndex {
    pub fn new(alloc: Global) -> MetricIndex
        ensures { result ≡ [] }
    {
        MetricIndex {
            alloc,
            entries: BTreeMap::new(alloc),
        }
    }

    // What is kept of a metric; none where no sample came.
    pub fn get(&self, metric: &Name) -> Option<&Tracked>
        ensures { option_copied result ≡ lookup (λ m. is_same metric.now m) self.now }
    {
        match self.entries.get(metric) {
            Some(tracked) => Some(tracked.get()),
            None => None,
        }
    }

    // Puts a sample in; changes nothing where there is no memory.
    pub fn insert(
        &mut self,
        metric: &Name,
        commit: u64,
        step: u64,
        value: i64,
    ) -> Result<(), NoMemory>
        requires { HasRoom (seen_of metric.now self.old) commit step value }
        ensures ok { OnOk result ((m : List ℕ) → seen_of m self.new
            ≡ (if is_same metric.now m
            then with_sample commit (record { step = step; value = value }) (seen_of m self.old)
            else seen_of m self.old)) }
        ensures err { OnErr result ((m : List ℕ) → seen_of m self.new ≡ seen_of m self.old) }
    {
        if let Some(tracked) = self.entries.get_mut(metric) {
            tracked.get_mut().insert(commit, step, value)?;
            return Ok(());
        }
        let mut tracked = Tracked::new(self.alloc);
        tracked.insert(commit, step, value)?;
        let key = metric.copy(self.alloc)?;
        let apart = Boxed::new(self.alloc, tracked)?;
        self.entries.insert(key, apart)?;
        Ok(())
    }

    // Places what waits in the series of a metric; changes nothing that is seen.
    pub(crate) fn settle(&mut self, metric: &Name) -> Result<(), NoMemory>
        ensures { (m : List ℕ) → seen_of m self.new ≡ seen_of m self.old }
    {
        if let Some(tracked) = self.entries.get_mut(metric) {
            return tracked.get_mut().settle();
        }
        Ok(())
    }

    // The positions of a metric's series as they are; places what waits, and changes nothing that is seen.
    pub(crate) fn freeze(&mut self, metric: &Name) -> Result<FrozenPoints, NoMemory>
        ensures points { IfOk result (λ points. points ≡ (seen_of metric.now self.old).points) }
        ensures same { (m : List ℕ) → seen_of m self.new ≡ seen_of m self.old }
    {
        if let Some(tracked) = self.entries.get_mut(metric) {
            return tracked.get_mut().freeze();
        }
        FrozenPoints::none(self.alloc)
    }

    // Takes out the samples of a step, and forgets the series where that is asked and it was known since then.
    pub fn remove(&mut self, metric: &Name, commit: u64, step: u64, forget: bool)
        ensures { (m : List ℕ) → seen_of m self.new ≡ (if is_same metric.now m
            then taken_out forget commit step (seen_of m self.old)
            else seen_of m self.old) }
    {
        if let Some(tracked) = self.entries.get_mut(metric) {
            tracked.get_mut().remove(commit, step, forget);
            return;
        }
    }
}
