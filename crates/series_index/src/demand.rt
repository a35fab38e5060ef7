//! What a run asks of the series before it is taken in.
ghost use Rattle.std.specs.Prelude.{◌≡◌, ◌≤◌, ◌<◌, ◌+◌, ◌↔◌, ◌&&◌, ◌||◌, [], not, if◌then◌else◌, IsTrue, IfOk, OnOk, All, length, is_some, nat_lt};
ghost use Rattle.segment_model.specs.{Segments.values_of, Edits.has_commit, Limits.IsSmall};
ghost use Rattle.sample_model.specs.Samples.{Measurement};
ghost use Rattle.series_index.specs.{Seen.seen, Demands.{new_ones, HaveRoomForSamples, HaveRoomForPosition, Tallies}, Plenty.HasPlenty};

use crate::NoMemory;
use crate::series::SeriesIndex;
use history_model::series_law;
use line_text::Name;
use sample_model::Sample;

/// What a run asks of an index.
#[derive(Debug, Drop)]
pub struct Demand {
    /// How many series it would make known.
    pub new: usize,
    /// Whether each series of the run has room for its samples.
    pub samples_fit: bool,
    /// Whether each has the run's commit, or room for it.
    pub positions_fit: bool,
}

impl SeriesIndex {
    // Whether the series ever had a sample.
    fn knows(&self, test: &Name, metric: &Name) -> bool
        ensures { result ≡ is_some
            (seen (record { test = test.now; metric = metric.now }) self.now).since }
    {
        match self.get(test, metric) {
            Some(tracked) => tracked.since.is_some(),
            None => false,
        }
    }

    // How many values the series has.
    fn count(&self, test: &Name, metric: &Name) -> usize
        ensures count { result ≡ length (values_of
            (seen (record { test = test.now; metric = metric.now }) self.now).points) }
        ensures few { result ≤ 65_536 }
    {
        match self.get(test, metric) {
            Some(tracked) => {
                tracked.points.limits();
                tracked.points.count()
            }
            None => 0,
        }
    }

    // Whether the series has the commit, or room for one more.
    fn takes(&self, test: &Name, metric: &Name, commit: u64) -> bool
        ensures { result ≡ (has_commit commit
            (seen (record { test = test.now; metric = metric.now }) self.now).points
            || nat_lt (length
            (seen (record { test = test.now; metric = metric.now }) self.now).points) 16_384) }
    {
        match self.get(test, metric) {
            Some(tracked) => tracked.points.takes(commit),
            None => true,
        }
    }

    // Whether the series is new both here and there.
    fn is_first(&self, tally: &SeriesIndex, test: &Name, metric: &Name) -> bool
        ensures { result ≡ (not (is_some
            (seen (record { test = test.now; metric = metric.now }) self.now).since)
            && not (is_some
            (seen (record { test = test.now; metric = metric.now }) tally.now).since)) }
    {
        !self.knows(test, metric) && !tally.knows(test, metric)
    }

    // Puts the samples into a tally of their own, and counts the series that are new to this index.
    fn count_new(
        &self,
        tally: &mut SeriesIndex,
        commit: u64,
        samples: &[Sample],
    ) -> Result<usize, NoMemory>
        requires empty { tally.old ≡ [] }
        requires small { All (λ (x : Measurement). IsSmall x.value) samples.now }
        requires few { length samples.now ≤ 65_536 }
        ensures new { IfOk result (λ new. new ≡ length (new_ones self.now samples.now)) }
        ensures few { IfOk result (λ new. new ≤ length samples.now) }
        ensures tally { OnOk result (Tallies tally.new commit samples.now) }
    {
        series_law();
        let mut new = 0;
        for sample in samples {
            new = add_if(new, self.is_first(tally, &sample.test, &sample.metric));
            tally.insert(&sample.test, &sample.metric, commit, 0, sample.value)?;
        }
        Ok(new)
    }

    // Whether each series of the samples has room for its samples.
    fn have_room(&self, tally: &SeriesIndex, commit: u64, samples: &[Sample]) -> bool
        requires { Tallies tally.now commit samples.now }
        ensures { IsTrue result ↔ HaveRoomForSamples self.now samples.now }
    {
        for sample in samples {
            let there = self.count(&sample.test, &sample.metric);
            let more = tally.count(&sample.test, &sample.metric);
            if there + more > 65_536 {
                return false;
            }
        }
        true
    }

    // Whether each series of the samples has the commit, or room for it.
    fn have_positions(&self, commit: u64, samples: &[Sample]) -> bool
        ensures { IsTrue result ↔ HaveRoomForPosition self.now commit samples.now }
    {
        for sample in samples {
            if !self.takes(&sample.test, &sample.metric, commit) {
                return false;
            }
        }
        true
    }

    // Whether the series is known, and has room for so many values more and the commit, or room for it.
    fn has_plenty(&self, test: &Name, metric: &Name, commit: u64, more: usize) -> bool
        requires { more ≤ 65_536 }
        ensures { IsTrue result → HasPlenty
            (seen (record { test = test.now; metric = metric.now }) self.now) commit more }
    {
        let Some(tracked) = self.get(test, metric) else {
            return false;
        };
        tracked.points.limits();
        tracked.since.is_some()
            && tracked.points.count() + more <= 65_536
            && tracked.points.takes(commit)
    }

    // Whether each series of the samples has plenty: room for all of them. Then no tally is needed.
    fn have_plenty(&self, commit: u64, samples: &[Sample]) -> bool
        requires { length samples.now ≤ 65_536 }
        ensures new { IsTrue result → length (new_ones self.now samples.now) ≡ 0 }
        ensures samples { IsTrue result → HaveRoomForSamples self.now samples.now }
        ensures positions { IsTrue result → HaveRoomForPosition self.now commit samples.now }
    {
        series_law();
        for sample in samples {
            if !self.has_plenty(&sample.test, &sample.metric, commit, samples.len()) {
                return false;
            }
        }
        true
    }

    /// What a run with these samples at a commit asks of the index. Linear in the samples, but for look-ups.
    pub fn demand(&self, commit: u64, samples: &[Sample]) -> Result<Demand, NoMemory>
        requires small { All (λ (x : Measurement). IsSmall x.value) samples.now }
        requires few { length samples.now ≤ 65_536 }
        ensures new { IfOk result (λ d. d.new ≡ length (new_ones self.now samples.now)) }
        ensures few { IfOk result (λ d. d.new ≤ length samples.now) }
        ensures samples { IfOk result
            (λ d. IsTrue d.samples_fit ↔ HaveRoomForSamples self.now samples.now) }
        ensures positions { IfOk result
            (λ d. IsTrue d.positions_fit ↔ HaveRoomForPosition self.now commit samples.now) }
    {
        if self.have_plenty(commit, samples) {
            return Ok(Demand {
                new: 0,
                samples_fit: true,
                positions_fit: true,
            });
        }
        let mut tally = SeriesIndex::new(self.alloc);
        let new = self.count_new(&mut tally, commit, samples)?;
        let samples_fit = self.have_room(&tally, commit, samples);
        let positions_fit = self.have_positions(commit, samples);
        Ok(Demand {
            new,
            samples_fit,
            positions_fit,
        })
    }
}

// One more where it is the first.
fn add_if(n: usize, first: bool) -> usize
    requires { n < 65_536 }
    ensures { result ≡ n + (if first then 1 else 0) }
{
    if first { n + 1 } else { n }
}
