//! Requests of a script, as they are once they were read.
ghost use Rattle.std.specs.Prelude.{◌≡◌};
ghost use Rattle.request_model.specs.Requests.{machine_of};

use line_text::{Duplicate, Name, NoMemory};
use regression_state::State;
use sample_model::Samples;
use std::alloc::Global;

/// A request of a script, read.
#[derive(Clone, Drop)]
pub enum Request {
    /// Declares a machine.
    Machine {
        /// The machine.
        machine: Name,
    },
    /// Declares a commit of a machine.
    Commit {
        /// The machine.
        machine: Name,
        /// The commit's place in the order of commits.
        number: u64,
        /// The commit's name.
        name: Name,
    },
    /// Hands in a run.
    Submit {
        /// The machine.
        machine: Name,
        /// The commit that was measured.
        commit: Name,
        /// The name that tells the machine's runs apart.
        run: Name,
        /// What was measured.
        samples: Samples,
        /// How many lines or members of the body were ignored and counted.
        ignored: u64,
        /// The machine that an LNT run names; none of Go benchmark text.
        stated: Option<Name>,
    },
    /// Takes a run back.
    Retract {
        /// The machine.
        machine: Name,
        /// The run.
        run: Name,
    },
    /// Sets the penalty of a metric, and the least length of its segments.
    Tune {
        /// The machine.
        machine: Name,
        /// The metric.
        metric: Name,
        /// The penalty, in squared units of the metric's last decimal.
        penalty: i128,
        /// The least length of a segment, where it isn't to stay as it is.
        length: Option<u8>,
    },
    /// Sets the penalty of a series' metric from the noise of the series.
    Calibrate {
        /// The machine.
        machine: Name,
        /// The test of the series.
        test: Name,
        /// Its metric.
        metric: Name,
        /// How many squares of the noise the penalty is.
        factor: u64,
    },
    /// Segments a series and publishes what is found.
    Segment {
        /// The machine.
        machine: Name,
        /// The test of the series.
        test: Name,
        /// Its metric.
        metric: Name,
    },
    /// Lists the changes of a series' last publication.
    Changes {
        /// The machine.
        machine: Name,
        /// The test of the series.
        test: Name,
        /// Its metric.
        metric: Name,
    },
    /// Shows the certificate of a series' last publication.
    Verify {
        /// The machine.
        machine: Name,
        /// The test of the series.
        test: Name,
        /// Its metric.
        metric: Name,
    },
    /// Raises a change of a series' last publication as a regression.
    Regress {
        /// The machine.
        machine: Name,
        /// The test of the series.
        test: Name,
        /// Its metric.
        metric: Name,
        /// Which change, from 1.
        change: u64,
    },
    /// Moves a regression to a state.
    SetState {
        /// The machine.
        machine: Name,
        /// The regression's number, from 1.
        regression: u64,
        /// The state.
        state: State,
    },
    /// Begins a bisection of the commits from a good one to a bad one.
    Bisect {
        /// The machine.
        machine: Name,
        /// The commit that is stated good.
        lo: Name,
        /// The commit that is stated bad.
        hi: Name,
    },
    /// Says with which status the test of a commit ended.
    Answer {
        /// The machine.
        machine: Name,
        /// The job's number, from 1.
        job: u64,
        /// The commit.
        commit: Name,
        /// The status: 0 is good, 125 and all from 128 on say nothing, all others are bad.
        status: u8,
    },
    /// Begins a bisection of the commits that a closed job had left.
    Resume {
        /// The machine.
        machine: Name,
        /// The job's number, from 1.
        job: u64,
    },
    /// Tells where a job stands.
    Job {
        /// The machine.
        machine: Name,
        /// The job's number, from 1.
        job: u64,
    },
    /// Lists the runs of a machine.
    Runs {
        /// The machine.
        machine: Name,
    },
    /// Reports on a machine.
    Report {
        /// The machine.
        machine: Name,
        /// Whether as JSON.
        json: bool,
    },
}

impl Request {
    /// The machine that it is about.
    pub fn machine(&self) -> &Name
        ensures { result.now ≡ machine_of self.now }
    {
        match self {
            Request::Machine { machine } => machine,
            Request::Commit { machine, .. } => machine,
            Request::Submit { machine, .. } => machine,
            Request::Retract { machine, .. } => machine,
            Request::Tune { machine, .. } => machine,
            Request::Calibrate { machine, .. } => machine,
            Request::Segment { machine, .. } => machine,
            Request::Changes { machine, .. } => machine,
            Request::Verify { machine, .. } => machine,
            Request::Regress { machine, .. } => machine,
            Request::SetState { machine, .. } => machine,
            Request::Bisect { machine, .. } => machine,
            Request::Answer { machine, .. } => machine,
            Request::Resume { machine, .. } => machine,
            Request::Job { machine, .. } => machine,
            Request::Runs { machine } => machine,
            Request::Report { machine, .. } => machine,
        }
    }
}

/// An equal request of its own. Takes the time of [`Samples::copy`] for a run, else constant time.
impl Duplicate for Request {
    fn copy(&self, _alloc: Global) -> Result<Request, NoMemory> {
        self.clone()
    }
}
