//! What the indexes tell of a series.
ghost use Rattle.std.specs.Prelude.{◌≡◌, ◌↔◌, true, Contains, IfErr, IfOk, OnErr, OnOk, option_copied};
ghost use Rattle.history_model.specs.{Entries.entries_of, Penalties.{setting_of, IsSetting}, Publications.last_publication, Runs.{Series, is_known}};
ghost use Rattle.track_model.specs.{Reports.AreSeriesLines, Tracks.{is_setting, with_taken}};
ghost use Rattle.machine_state.specs.{Made.setting_in, State.{HasNone, IsBegun, IsFound, IsKept, IsLast}};

use crate::NoMemory;
use crate::base::Base;
use crate::state::MachineState;
use history_model::{Setting, publication_law};
use line_text::Name;
use point_list::FrozenPoints;
use report_lines::series_lines;
use report_model::SeriesLines;
use request_model::Refusal;
use segment_cost::Done;
use series_index::SeriesNames;

impl MachineState {
    /// Whether the series ever had a sample.
    pub fn is_known(&self, test: &Name, metric: &Name) -> bool
        ensures { result ≡ is_known
            (record { test = test.now; metric = metric.now }) (entries_of self.now.history) }
    {
        match self.series.get(test, metric) {
            Some(tracked) => tracked.since.is_some(),
            None => false,
        }
    }

    /// The series that ever had a sample, by the bytes of test, then metric. Linear in their number.
    pub fn known_series(&self) -> Result<SeriesNames, NoMemory>
        ensures { IfOk result (λ names. (s : Series) →
            (is_known s (entries_of self.now.history) ≡ true) ↔ Contains names s) }
    {
        Ok(self.series.known()?)
    }

    /// The setting of a metric.
    pub fn setting(&self, metric: &Name) -> Setting
        ensures given { result ≡ setting_of metric.now (entries_of self.now.history) }
        ensures fits { IsSetting result }
    {
        let _ = &self.history;
        self.settings.get(metric)
    }

    /// The positions of a series as they are; none exactly where the series isn't known. Changes nothing that is seen.
    /// One step for 128 positions, but for look-ups and for samples that came since they were last asked for.
    pub fn points_of(
        &mut self,
        test: &Name,
        metric: &Name,
    ) -> Result<Option<FrozenPoints>, NoMemory>
        ensures found { IfOk result (IsFound (entries_of self.old.history)
            (record { test = test.now; metric = metric.now })) }
        ensures same { self.new ≡ self.old }
    {
        if !self.is_known(test, metric) {
            return Ok(None);
        }
        let points = self.series.points(test, metric)?;
        Ok(Some(points))
    }

    /// The segmentation that a series' last publication was made from; none exactly where nothing was published of it.
    /// Logarithmic time; takes no memory.
    pub fn published(&self, test: &Name, metric: &Name) -> Option<&Done>
        ensures { IsKept (entries_of self.now.history) (last_publication
            (record { test = test.now; metric = metric.now }) (entries_of self.now.history))
            (option_copied result) }
    {
        self.published.get(test, metric)
    }

    /// The segmentation that the series' last publication was made from, for a request about it; where there is none, why
    /// that request is refused. Logarithmic time; takes no memory.
    pub fn last_published(&self, test: &Name, metric: &Name) -> Result<&Done, Refusal>
        ensures found { IfOk result (λ done. IsLast (entries_of self.now.history)
            (record { test = test.now; metric = metric.now }) done.now) }
        ensures none { IfErr result (λ why. HasNone (entries_of self.now.history)
            (record { test = test.now; metric = metric.now }) why) }
    {
        publication_law();
        self.history_law();
        if !self.is_known(test, metric) {
            return Err(Refusal::UnknownSeries);
        }
        match self.published(test, metric) {
            Some(done) => Ok(done),
            None => Err(Refusal::NothingPublished),
        }
    }

    /// What the next segmentation of a series begins with: the table of its last publication, where that is home and has
    /// the present setting. It is home no longer then. Where there is no memory, nothing changes. Constant time, but for
    /// look-ups.
    pub fn take_base(&mut self, test: &Name, metric: &Name) -> Result<Option<Base>, NoMemory>
        ensures begun { IfOk result (IsBegun self.old
            (record { test = test.now; metric = metric.now })) }
        ensures taken { OnOk result (self.new
            ≡ with_taken (record { test = test.now; metric = metric.now }) self.old) }
        ensures same { OnErr result (self.new ≡ self.old) }
    {
        publication_law();
        let Some(done) = self.published.at_home(test, metric) else {
            return Ok(None);
        };
        if !is_made_at(done, self.settings.get(metric)) {
            return Ok(None);
        }
        let version = done.version;
        let points = done.points.share()?;
        let Some(table) = self.published.take_table(test, metric) else {
            unreachable!();
        };
        Ok(Some(Base {
            version,
            points,
            table,
        }))
    }

    /// A line for each known series. Changes nothing that is seen.
    pub fn series_lines(&mut self) -> Result<SeriesLines, NoMemory>
        ensures lines { IfOk result (λ lines. AreSeriesLines (entries_of self.old.history) lines) }
        ensures same { self.new ≡ self.old }
    {
        publication_law();
        self.history_law();
        series_lines(self.alloc, &mut self.series, &self.published)
    }
}

// Whether a segmentation was made at this setting.
fn is_made_at(done: &Done, setting: Setting) -> bool
    ensures { result ≡ is_setting (setting_in done.now) setting }
{
    done.cert.penalty == setting.penalty && done.cert.length == setting.length
}
