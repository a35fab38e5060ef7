//! Questions, asked of a runner.
ghost use Rattle.std.specs.Prelude.{◌≡◌, ◌≤◌, IfOk, OnErr};
ghost use Rattle.track_outside.specs.Asked.{with_ask};
ghost use Rattle.bisect_workers.specs.{Bisecting.RoseBy, Failures.failures};

use crate::NoMemory;
use std::alloc::Global;
use track_outside::{OutError, Runner};
use track_room::Question;

// The status of the test of a question's commit; none where no test could be had.
pub(crate) fn ask<R: Runner>(
    alloc: Global,
    runner: &mut R,
    test: &str,
    question: &Question,
) -> Result<Option<u8>, NoMemory>
    ensures asked { IfOk result (λ status. R.asked runner.new ≡ with_ask
        (record { test = test.now; commit = question.now.commit; status = status })
        (R.asked runner.old)) }
    ensures faults { IfOk result (λ status.
        RoseBy (failures status) (R.faults runner.old) (R.faults runner.new)) }
    ensures same { OnErr result (R.asked runner.new ≡ R.asked runner.old) }
    ensures counts { R.faults runner.old ≤ R.faults runner.new }
{
    match runner.ask(alloc, test, question.commit.as_str()) {
        Ok(status) => Ok(Some(status)),
        Err(OutError::Failed) => Ok(None),
        Err(OutError::NoMemory) => Err(NoMemory),
    }
}
