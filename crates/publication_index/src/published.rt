//! The last finished segmentation of each series.
ghost use Rattle.std.specs.Prelude.{◌≡◌, [], if◌then◌else◌, OnOk, OnErr, option_copied, Some, IfSome};
ghost use Rattle.std.specs.FinSet as set;
ghost use Rattle.history_model.specs.Runs.{Series, same_series};
ghost use Rattle.publication_index.specs.{Homes.homes, Kept.{held, home, kept, kept_at_home, series_of}, Standing.{IsKeptTable, table_for}};

use crate::NoMemory;
use crate::held::Held;
use line_text::{Boxed, Duplicate, Name};
use name_index::PairMap;
use pelt_core::{Done, Square, Table};
use std::alloc::Global;
use std::marker::Model;

/// The last finished segmentation of each series, in order of test and metric, with its table where that is home.
#[derive(Drop)]
pub struct PublicationIndex(PairMap<Boxed<Held>>);

impl Model for PublicationIndex {
    ghost use Rattle.std.specs.Prelude.{ℕ, List};
    ghost use Rattle.publication_index.specs.declared.held.Held.{Held};

    ghost Value = { List (List ℕ × List (List ℕ × Held)) };

    ghost view = { λ s. s.0 };
}

impl PublicationIndex {
    /// Nothing is kept. The value keeps its allocator.
    pub fn new(alloc: Global) -> PublicationIndex
        ensures { result ≡ [] }
    {
        PublicationIndex(PairMap::new(alloc))
    }

    // What is held of a series.
    fn find(&self, test: &Name, metric: &Name) -> Option<&Held>
        ensures { option_copied result
            ≡ held (record { test = test.now; metric = metric.now }) self.now }
    {
        match self.0.get(test, metric) {
            Some(held) => Some(held.get()),
            None => None,
        }
    }

    /// What is kept of a series. Logarithmic time; takes no memory.
    pub fn get(&self, test: &Name, metric: &Name) -> Option<&Done>
        ensures { option_copied result
            ≡ kept (record { test = test.now; metric = metric.now }) self.now }
    {
        let held = self.find(test, metric)?;
        Some(&held.done)
    }

    /// What is kept of a series whose table is home. Logarithmic time; takes no memory.
    pub fn at_home(&self, test: &Name, metric: &Name) -> Option<&Done>
        ensures { option_copied result
            ≡ kept_at_home (record { test = test.now; metric = metric.now }) self.now }
    {
        self.find(test, metric)?.at_home()
    }

    /// Puts it, with its table, in the place of its series' earlier one; where there is no memory, what is kept of each
    /// series stays. Logarithmic time.
    pub fn insert(&mut self, done: Done, table: Table<Square>) -> Result<(), NoMemory>
        requires { table ≡ table_for done }
        ensures kept { OnOk result ((s : Series) → kept s self.new
            ≡ (if same_series (series_of done) s then Some done else kept s self.old)) }
        ensures home { OnOk result
            (homes self.new ≡ set.insert (homes self.old) (series_of done)) }
        ensures same { OnErr result ((s : Series) → kept s self.new ≡ kept s self.old) }
        ensures stay { OnErr result (homes self.new ≡ homes self.old) }
    {
        let alloc = self.0.allocator();
        let test = done.test.copy(alloc)?;
        let metric = done.metric.copy(alloc)?;
        let table = Some(table);
        let held = Boxed::new(alloc, Held { done, table })?;
        self.0.put(&test, &metric, held)?;
        Ok(())
    }

    /// Takes the table of a series, if it is home; what is kept of each series stays. Logarithmic time; takes no memory.
    pub fn take_table(&mut self, test: &Name, metric: &Name) -> Option<Table<Square>>
        ensures taken { result ≡ home (record { test = test.now; metric = metric.now }) self.old }
        ensures stands { IfSome result (λ table. IsKeptTable table
            (kept (record { test = test.now; metric = metric.now }) self.old)) }
        ensures kept { (s : Series) → kept s self.new ≡ kept s self.old }
        ensures left { homes self.new ≡ set.remove (homes self.old)
            (record { test = test.now; metric = metric.now }) }
    {
        if let Some(held) = self.0.get_mut(test, metric) {
            let table = held.get_mut().take_table();
            return table;
        }
        None
    }
}
