//! What is followed of a machine: its regressions and its bisections.
ghost use Rattle.std.specs.Prelude.{◌≡◌, [], OnOk, OnErr};
ghost use Rattle.machine_state.specs.Following.{RegressionFits, RegressionHappens, JobFits, JobHappens};

use crate::NoMemory;
use follow_index::{JobIndex, RegressionIndex};
use history_model::{JobEvent, RegressionEvent, between_law};
use line_text::Duplicate;
use order_index::OrderIndex;
use std::alloc::Global;

// The regressions and the bisections of a machine.
#[derive(Drop)]
pub struct Following {
    pub regressions: RegressionIndex,
    pub jobs: JobIndex,
}

impl Following {
    pub fn new(alloc: Global) -> Following
        ensures { result ≡ record { regressions = []; jobs = [] } }
    {
        Following {
            regressions: RegressionIndex::new(alloc),
            jobs: JobIndex::new(alloc),
        }
    }
}

// The regressions after what becomes of one; where there is no memory, they stay.
pub fn follow_regression(
    alloc: Global,
    regressions: &mut RegressionIndex,
    event: &RegressionEvent,
) -> Result<(), NoMemory>
    requires { RegressionFits event.now regressions.old }
    ensures ok { OnOk result (RegressionHappens event.now regressions.old regressions.new) }
    ensures err { OnErr result (regressions.new ≡ regressions.old) }
{
    match event {
        RegressionEvent::Raise { raised } => {
            let raised = raised.copy(alloc)?;
            regressions.raise(raised)?;
            Ok(())
        }
        RegressionEvent::Move { regression, state } => {
            let number = *regression;
            let state = *state;
            regressions.move_to(number, state);
            Ok(())
        }
    }
}

// The bisections after what becomes of one; where there is no memory, they stay.
pub fn follow_job(
    alloc: Global,
    commits: &OrderIndex,
    jobs: &mut JobIndex,
    event: &JobEvent,
) -> Result<(), NoMemory>
    requires { JobFits commits.now event.now jobs.old }
    ensures ok { OnOk result (JobHappens commits.now event.now jobs.old jobs.new) }
    ensures err { OnErr result (jobs.new ≡ jobs.old) }
{
    between_law();
    let event = *event;
    match event {
        JobEvent::Begin { lo, hi } => {
            let numbers = commits.between(alloc, lo, hi)?;
            jobs.begin(numbers)?;
            Ok(())
        }
        JobEvent::Answer { job, place, status } => {
            jobs.answer(job, place, status);
            Ok(())
        }
        JobEvent::GiveUp { job, place } => {
            jobs.give_up(job, place);
            Ok(())
        }
    }
}
