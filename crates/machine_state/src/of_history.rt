//! What the indexes tell of commits, runs, regressions and bisections.
ghost use Rattle.std.specs.Prelude.{◌≡◌, ◌≤◌, IfOk, is_some, length};
ghost use Rattle.history_model.specs.{Commits.{declarations, name_of, number_of}, Entries.entries_of, Jobs.jobs, Runs.{accepted, acceptances, known_series, sample_count}};
ghost use Rattle.follow_index.specs.Followed.{followed};
ghost use Rattle.machine_state.specs.{Asked.Asks, Indexes.stored_runs};

use crate::NoMemory;
use crate::state::MachineState;
use follow_index::{JobIndex, RegressionIndex};
use history_model::Run;
use line_text::Name;
use order_index::OrderIndex;
use sample_store::SampleStore;
use series_index::Demand;

impl MachineState {
    /// The commits that were declared. Takes no memory.
    pub fn commits(&self) -> &OrderIndex
        ensures { result.now ≡ declarations (entries_of self.now.history) }
    {
        &self.commits
    }

    /// The runs that were accepted, each with the step of its retraction. Takes no memory.
    pub fn stored_runs(&self) -> &SampleStore
        ensures { result.now ≡ stored_runs (entries_of self.now.history) }
    {
        &self.runs
    }

    /// The regressions that were raised, with their states. Takes no memory.
    pub fn regressions(&self) -> &RegressionIndex
        ensures { result.now ≡ followed (entries_of self.now.history) }
    {
        &self.following.regressions
    }

    /// The bisections that were begun, each where it stands. Takes no memory.
    pub fn jobs(&self) -> &JobIndex
        ensures { result.now ≡ jobs (entries_of self.now.history) }
    {
        &self.following.jobs
    }

    /// The number of the commit of a name.
    pub fn number_of(&self, name: &Name) -> Option<u64>
        ensures { result ≡ number_of name.now (entries_of self.now.history) }
    {
        self.commits().number_of(name)
    }

    /// Whether a commit of that number was declared.
    pub fn is_declared(&self, number: u64) -> bool
        ensures { result ≡ is_some (name_of number (entries_of self.now.history)) }
    {
        self.commits.name_of(number).is_some()
    }

    /// Whether a run of that name was accepted.
    pub fn was_accepted(&self, run: &Name) -> bool
        ensures { result ≡ is_some (accepted run.now (entries_of self.now.history)) }
    {
        self.runs.of_name(run).is_some()
    }

    /// How many runs were accepted.
    pub fn run_count(&self) -> u64
        ensures { result ≡ length (acceptances (entries_of self.now.history)) }
    {
        self.runs.len() as u64
    }

    /// How many samples they have.
    pub fn samples_before(&self) -> u64
        ensures count { result ≡ sample_count (acceptances (entries_of self.now.history)) }
        ensures few { result ≤ 524_288 }
    {
        self.runs.sample_count()
    }

    /// How many series are known.
    pub fn known_count(&self) -> u64
        ensures count { result ≡ length (known_series (entries_of self.now.history)) }
        ensures few { result ≤ 16_384 }
    {
        self.known
    }

    /// What the run asks of the series.
    pub fn asked(&self, run: &Run) -> Result<Demand, NoMemory>
        ensures { IfOk result (λ demand. Asks (entries_of self.now.history) run.now demand) }
    {
        run.samples.limits();
        Ok(self.series.demand(run.commit, run.samples.as_slice())?)
    }
}
