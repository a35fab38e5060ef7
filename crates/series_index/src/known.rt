//! The series that are known, listed in order.
ghost use Rattle.std.specs.{Prelude.{◌≡◌, ◌++◌, ℕ, List, IfOk, OnOk}, List.Sorted.IsStrictlySortedBy, Map.{keys_of, lookup}, Ordering.nat_cmp, Cmp.Lexicographic.slice_cmp};
ghost use Rattle.series_index.specs.{Known.AreKnown, Listed.{known_of, metrics_at, at_place}, Seen.is_same};

use crate::NoMemory;
use crate::metrics::MetricIndex;
use crate::series::SeriesIndex;
use line_text::{Duplicate, Items, Name};
use std::alloc::Global;
use std::collections::BTreeMap;
use std::marker::Model;

/// A series by name. Contracts see the series.
#[derive(Clone, Debug, Drop)]
pub struct SeriesName {
    test: Name,
    metric: Name,
}

impl Model for SeriesName {
    ghost use Rattle.history_model.specs.Runs.{Series};

    ghost Value = { Series };

    ghost view = { λ s. record { test = s.test; metric = s.metric } };
}

/// Series by name, in a list.
pub type SeriesNames = Items<SeriesName>;

impl SeriesName {
    /// Its test.
    pub fn test(&self) -> &Name
        ensures { result.now ≡ self.now.test }
    {
        &self.test
    }

    /// Its metric.
    pub fn metric(&self) -> &Name
        ensures { result.now ≡ self.now.metric }
    {
        &self.metric
    }
}

/// The same series once more. Constant time.
impl Duplicate for SeriesName {
    fn copy(&self, _alloc: Global) -> Result<SeriesName, NoMemory> {
        self.clone()
    }
}

impl MetricIndex {
    // Puts the known series of the test behind others.
    fn put_known(&self, alloc: Global, test: &Name, names: &mut SeriesNames) -> Result<(), NoMemory>
        ensures put { OnOk result (names.new ≡ names.old ++ known_of test.now self.now) }
        ensures sorted { IsStrictlySortedBy (slice_cmp nat_cmp) (keys_of self.now) }
    {
        for (metric, tracked) in &self.entries {
            if tracked.get().since.is_some() {
                names.push(SeriesName {
                    test: test.copy(alloc)?,
                    metric: metric.copy(alloc)?,
                })?;
            }
        }
        Ok(())
    }
}

impl SeriesIndex {
    // The places of the tests, in order of their names.
    fn in_order(&self) -> Result<BTreeMap<Name, usize>, NoMemory>
        ensures { IfOk result (λ order. (t : List ℕ) → at_place self.now
            (lookup (λ n. is_same t n) order.entries) ≡ lookup (λ n. is_same t n) self.now) }
    {
        let mut order = BTreeMap::new(self.alloc);
        let count = self.tests.len();
        for done in 0..count {
            let place = count - 1 - done;
            let key = self.tests[place].0.copy(self.alloc)?;
            order.insert(key, place)?;
        }
        Ok(order)
    }

    // Puts the known series of the test at a place behind others.
    fn put_at(&self, place: usize, test: &Name, names: &mut SeriesNames) -> Result<(), NoMemory>
        ensures put { OnOk result
            (names.new ≡ names.old ++ known_of test.now (metrics_at self.now place)) }
        ensures sorted { IsStrictlySortedBy (slice_cmp nat_cmp)
            (keys_of (metrics_at self.now place)) }
    {
        if place >= self.tests.len() {
            return Ok(());
        }
        self.tests[place].1.put_known(self.alloc, test, names)
    }

    /// The series that ever had a sample, by the bytes of test, then metric. Linear in their number, but for the order of n
    /// tests, which takes O(n log n) time.
    pub fn known(&self) -> Result<SeriesNames, NoMemory>
        ensures { IfOk result (λ names. AreKnown self.now names) }
    {
        let order = self.in_order()?;
        let mut names = SeriesNames::new(self.alloc);
        for (test, place) in &order {
            self.put_at(*place, test, &mut names)?;
        }
        Ok(names)
    }
}
