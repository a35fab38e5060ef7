//! The series of a machine, by test and metric: samples put in and taken out.
ghost use Rattle.std.specs.{Prelude.{◌≡◌, [], if◌then◌else◌, OnOk, OnErr, All, length, unwrap_or, option_copied, IfOk}, List.list_any};
ghost use Rattle.segment_model.specs.Limits.{IsSmall};
ghost use Rattle.sample_model.specs.Samples.{Measurement};
ghost use Rattle.history_model.specs.Runs.{Series, is_of};
ghost use Rattle.series_index.specs.{Seen.{seen, unseen, is_series, with_sample, without, undone, taken_out, HasRoom}, Taken.{of_series, with_samples, HasRoomFor}};

use crate::NoMemory;
use crate::metrics::MetricIndex;
use crate::tracked::Tracked;
use line_text::{Duplicate, Name};
use name_index::NameIndex;
use point_list::{FrozenPoints, Points};
use sample_model::Sample;
use std::alloc::Global;
use std::marker::Model;

/// The series of a machine.
#[derive(Drop)]
pub struct SeriesIndex {
    pub(crate) alloc: Global,
    // The names of the tests, each at the place of its metrics.
    names: NameIndex,
    pub(crate) tests: Vec<(Name, MetricIndex)>,
}

impl Model for SeriesIndex {
    ghost use Rattle.std.specs.Prelude.{ℕ, List};
    ghost use Rattle.series_index.specs.declared.tracked.Tracked.{Tracked};

    ghost Value = { List (List ℕ × List (List ℕ × Tracked)) };

    ghost use Rattle.std.specs.{Prelude.◌≡◌, Map.keys_of};

    ghost view = { λ s. s.tests.items };

    ghost invariant = { λ s. s.names ≡ keys_of s.tests.items };
}

impl SeriesIndex {
    /// No series. The value keeps its allocator.
    pub fn new(alloc: Global) -> SeriesIndex
        ensures { result ≡ [] }
    {
        SeriesIndex {
            alloc,
            names: NameIndex::new(alloc),
            tests: Vec::new(alloc),
        }
    }

    /// What is kept of a series; none where it never had a sample. Logarithmic time; takes no memory.
    pub fn get(&self, test: &Name, metric: &Name) -> Option<&Tracked>
        ensures { unwrap_or (option_copied result) unseen
            ≡ seen (record { test = test.now; metric = metric.now }) self.now }
    {
        match self.names.place_of(test) {
            Some(place) => self.tests[place].1.get(metric),
            None => None,
        }
    }

    /// Puts a sample in at a commit; changes nothing that is seen where there is no memory. Logarithmic time to find the
    /// series; the sample waits there until the positions are asked for.
    pub fn insert(
        &mut self,
        test: &Name,
        metric: &Name,
        commit: u64,
        step: u64,
        value: i64,
    ) -> Result<(), NoMemory>
        requires { HasRoom (seen (record { test = test.now; metric = metric.now }) self.old)
            commit step value }
        ensures ok { OnOk result ((s : Series) → seen s self.new
            ≡ (if is_series test.now metric.now s
            then with_sample commit (record { step = step; value = value }) (seen s self.old)
            else seen s self.old)) }
        ensures err { OnErr result ((s : Series) → seen s self.new ≡ seen s self.old) }
    {
        if let Some(place) = self.names.place_of(test) {
            self.tests[place].1.insert(metric, commit, step, value)?;
            return Ok(());
        }
        let mut metrics = MetricIndex::new(self.alloc);
        metrics.insert(metric, commit, step, value)?;
        self.tests.reserve(1)?;
        let key = test.copy(self.alloc)?;
        let name = test.copy(self.alloc)?;
        self.names.insert(name)?;
        self.tests.push_reserved((key, metrics));
        Ok(())
    }

    // Places the samples that wait in a series. Changes nothing that is seen, whether there is memory or not.
    fn settle(&mut self, test: &Name, metric: &Name) -> Result<(), NoMemory>
        ensures { (s : Series) → seen s self.new ≡ seen s self.old }
    {
        if let Some(place) = self.names.place_of(test) {
            return self.tests[place].1.settle(metric);
        }
        Ok(())
    }

    // The positions of a series that ever had a sample, where none waits in it.
    fn settled(&self, test: &Name, metric: &Name) -> Result<Option<&Points>, NoMemory>
        ensures { IfOk result (λ found. unwrap_or (option_copied found) []
            ≡ (seen (record { test = test.now; metric = metric.now }) self.now).points) }
    {
        let Some(tracked) = self.get(test, metric) else {
            return Ok(None);
        };
        let Some(points) = tracked.points.settled() else {
            return Err(NoMemory);
        };
        Ok(Some(points))
    }

    /// The positions of a series as they are; none where the series never had a sample. Changes nothing that is seen.
    /// Logarithmic time to find the series, one step for 128 positions, and O(n log n) for n samples that came since they
    /// were last asked for, and for what stands behind the first of these.
    pub fn points(&mut self, test: &Name, metric: &Name) -> Result<FrozenPoints, NoMemory>
        ensures points { IfOk result (λ points. points
            ≡ (seen (record { test = test.now; metric = metric.now }) self.old).points) }
        ensures same { (s : Series) → seen s self.new ≡ seen s self.old }
    {
        if let Some(place) = self.names.place_of(test) {
            return self.tests[place].1.freeze(metric);
        }
        FrozenPoints::none(self.alloc)
    }

    /// How many positions a series has. Changes nothing that is seen. Logarithmic time, and O(n log n) for n samples that
    /// came since its positions were last asked for.
    pub fn position_count(&mut self, test: &Name, metric: &Name) -> Result<usize, NoMemory>
        ensures count { IfOk result (λ count. count
            ≡ length (seen (record { test = test.now; metric = metric.now }) self.old).points) }
        ensures same { (s : Series) → seen s self.new ≡ seen s self.old }
    {
        self.settle(test, metric)?;
        match self.settled(test, metric)? {
            Some(points) => Ok(points.len()),
            None => Ok(0),
        }
    }

    // Takes all samples of a step at a commit out of a series, and forgets it where that is asked and it was known since
    // then.
    fn remove(&mut self, test: &Name, metric: &Name, commit: u64, step: u64, forget: bool)
        ensures { (s : Series) → seen s self.new ≡ (if is_series test.now metric.now s
            then taken_out forget commit step (seen s self.old)
            else seen s self.old) }
    {
        if let Some(place) = self.names.place_of(test) {
            self.tests[place].1.remove(metric, commit, step, forget);
            return;
        }
    }

    /// Takes all samples of a step at a commit out of a series, which stays known. Takes no memory.
    pub fn take_out(&mut self, test: &Name, metric: &Name, commit: u64, step: u64)
        ensures { (s : Series) → seen s self.new ≡ (if is_series test.now metric.now s
            then without commit step (seen s self.old)
            else seen s self.old) }
    {
        self.remove(test, metric, commit, step, false);
    }

    /// Takes them out as if they had never come: the series is no longer known where it was known since then.
    pub fn undo(&mut self, test: &Name, metric: &Name, commit: u64, step: u64)
        ensures { (s : Series) → seen s self.new ≡ (if is_series test.now metric.now s
            then undone commit step (seen s self.old)
            else seen s self.old) }
    {
        self.remove(test, metric, commit, step, true);
    }

    /// Puts all samples of a run in at a commit, each into its series; where there is no memory for one of them, what is
    /// seen of each series stays as it was.
    pub fn take_in(&mut self, commit: u64, step: u64, samples: &[Sample]) -> Result<(), NoMemory>
        requires small { All (λ (x : Measurement). IsSmall x.value) samples.now }
        requires room { (s : Series) → HasRoomFor (seen s self.old) commit step
            (length (of_series s samples.now)) }
        requires fresh { (s : Series) → undone commit step (seen s self.old) ≡ seen s self.old }
        ensures ok { OnOk result ((s : Series) → seen s self.new
            ≡ with_samples commit step (of_series s samples.now) (seen s self.old)) }
        ensures err { OnErr result ((s : Series) → seen s self.new ≡ seen s self.old) }
    {
        for sample in samples {
            if let Err(_) = self.insert(&sample.test, &sample.metric, commit, step, sample.value) {
                self.undo_all(commit, step, samples);
                return Err(NoMemory);
            }
        }
        Ok(())
    }

    // Takes all samples of a step at a commit out of the series of some samples, and forgets those where that is asked.
    fn remove_all(&mut self, commit: u64, step: u64, samples: &[Sample], forget: bool)
        requires { (s : Series) → taken_out forget commit step
            (taken_out forget commit step (seen s self.old))
            ≡ taken_out forget commit step (seen s self.old) }
        ensures { (s : Series) → seen s self.new
            ≡ (if list_any (is_of s) samples.now
            then taken_out forget commit step (seen s self.old)
            else seen s self.old) }
    {
        for sample in samples {
            self.remove(&sample.test, &sample.metric, commit, step, forget);
        }
    }

    /// Takes all samples of a step at a commit out of the series of a run's samples. Takes no memory.
    pub fn take_back(&mut self, commit: u64, step: u64, samples: &[Sample])
        ensures { (s : Series) → seen s self.new
            ≡ (if list_any (is_of s) samples.now
            then without commit step (seen s self.old)
            else seen s self.old) }
    {
        self.remove_all(commit, step, samples, false);
    }

    /// Takes all samples of a step out of the series of some samples, as if they had never come. Takes no memory.
    pub fn undo_all(&mut self, commit: u64, step: u64, samples: &[Sample])
        requires { (s : Series) → undone commit step (undone commit step (seen s self.old))
            ≡ undone commit step (seen s self.old) }
        ensures { (s : Series) → seen s self.new
            ≡ (if list_any (is_of s) samples.now
            then undone commit step (seen s self.old)
            else seen s self.old) }
    {
        self.remove_all(commit, step, samples, true);
    }
}
