//! Workers beside the jobs of a run.
ghost use Rattle.std.specs.{Prelude.{◌≤◌, length}, List.{AllByRecursion, AllZip}};
ghost use Rattle.side_by_side.specs.Runs.{AllCanRun};
ghost use Rattle.worker_crew.specs.Workers.{HaveWorked, IsSeated, Recomputes};

use crate::worker::RoomWorker;
use play_crew::Ended;
use side_by_side::{Job, run_with_workers};
use std::sync::Wait;
use std::thread::Threads;
use track_outside::{Gate, Runner};

/// Runs the jobs at once, and beside them the workers: those that recompute, and those that bisect, each with the runner in its
/// place. Tells the workers when the jobs have returned, and returns when they have too. Runners behind the last of the workers
/// stay as they are. Each runs in a thread of its own, if one can be had.
pub fn work_beside<'a, R: Threads + Wait + Sync, J: Job<R> + Send, A: Runner + Send, G: Gate>(
    rt: &R,
    ended: &Ended,
    jobs: &mut [J],
    recomputers: &mut [RoomWorker<'a, G>],
    bisectors: &mut [RoomWorker<'a, G>],
    runners: &mut [A],
)
    requires jobs { AllCanRun J.can_run jobs.old }
    requires recomputers { AllByRecursion IsSeated recomputers.old }
    requires bisectors { AllByRecursion IsSeated bisectors.old }
    requires enough { length bisectors.old ≤ length runners.old }
    ensures jobs { AllZip J.comes_to jobs.old jobs.new }
    ensures recompute { AllZip Recomputes recomputers.old recomputers.new }
    ensures bisect { HaveWorked A.Runner bisectors.old runners.old bisectors.new runners.new }
{
    let (tools, _) = runners.split_at_mut(bisectors.len());
    run_with_workers(rt, &|| ended.set(), jobs, recomputers, bisectors, tools);
}
