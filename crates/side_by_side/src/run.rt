//! Running jobs at once.
ghost use Rattle.std.specs.{List.AllZip, Thread.IsSync};
ghost use Rattle.side_by_side.specs.Runs.{AllCanRun, AllCanWork, AllWorked};

use crate::job::{Job, Worker};
use std::sync::Wait;
use std::thread::{Threads, join_mut};

/// Runs each job in a thread of its own, and returns when all have returned. Jobs whose thread can't be started are run one
/// after another by the thread that calls, when it has run those behind them.
pub fn run_at_once<R: Threads + Wait + Sync, J: Job<R> + Send>(rt: &R, jobs: &mut [J])
    requires { AllCanRun J.can_run jobs.old }
    ensures { AllZip J.comes_to jobs.old jobs.new }
{
    let Some((first, rest)) = jobs.split_first_mut() else {
        return;
    };
    join_mut(
        rt,
        &mut ||
            requires { J.can_run first.now }
            ensures { J.comes_to first.entry.now first.exit.now }
        { first.run(rt) },
        &mut ||
            requires { IsSync R.row × AllCanRun J.can_run rest.now }
            ensures { AllZip J.comes_to rest.entry.now rest.exit.now }
        { run_at_once(rt, rest) },
    );
}

/// Runs each job, and beside the jobs each helper, in threads of their own; calls `then` when all jobs have returned, and
/// returns when all helpers have returned too. So helpers may go on until they learn of that call. A helper whose thread
/// can't be started is run by the thread that calls, when `then` has been called: none keeps a job waiting.
pub fn run_with_helpers<
    R: Threads + Wait + Sync,
    J: Job<R> + Send,
    H: Job<R> + Send,
    F: Fn() + Sync,
>(rt: &R, then: &F, jobs: &mut [J], helpers: &mut [H])
    requires jobs { AllCanRun J.can_run jobs.old }
    requires helpers { AllCanRun H.can_run helpers.old }
    requires then { F.pre then.now }
    ensures jobs { AllZip J.comes_to jobs.old jobs.new }
    ensures helpers { AllZip H.comes_to helpers.old helpers.new }
{
    let Some((first, rest)) = helpers.split_first_mut() else {
        run_at_once(rt, jobs);
        then();
        return;
    };
    join_mut(
        rt,
        &mut ||
            requires { H.can_run first.now }
            ensures { H.comes_to first.entry.now first.exit.now }
        { first.run(rt) },
        &mut ||
            requires shared { IsSync R.row × IsSync F.row }
            requires then { F.pre then.now }
            requires can { AllCanRun J.can_run jobs.now × AllCanRun H.can_run rest.now }
            ensures jobs { AllZip J.comes_to jobs.entry.now jobs.exit.now }
            ensures helpers { AllZip H.comes_to rest.entry.now rest.exit.now }
        { run_with_helpers(rt, then, jobs, rest) },
    );
}

/// Lets each worker work in a thread of its own with the tool in its place, and returns when all have returned. Workers whose
/// thread can't be started work one after another in the thread that calls, when those behind them have.
pub fn work_at_once<R: Threads + Wait + Sync, W: Worker<R, T> + Send, T: Send>(
    rt: &R,
    workers: &mut [W],
    tools: &mut [T],
)
    requires { AllCanWork W.can_work workers.old tools.old }
    ensures { AllWorked W.work_gives workers.old tools.old workers.new tools.new }
{
    run_with_workers::<R, Idle, Idle, W, T, _>(rt, &|| {}, &mut [], &mut [], workers, tools);
}

// A job that does nothing.
#[derive(Drop)]
struct Idle;

impl<R> Job<R> for Idle {
    ghost can_run = { λ job. Unit };

    ghost comes_to = { λ old new. Unit };

    fn run(&mut self, _: &R)
    where
        R: Wait,
    {}
}

/// As [`run_with_helpers`], with workers beside the helpers, each of which is lent the tool in its place.
pub fn run_with_workers<
    R: Threads + Wait + Sync,
    J: Job<R> + Send,
    H: Job<R> + Send,
    W: Worker<R, T> + Send,
    T: Send,
    F: Fn() + Sync,
>(rt: &R, then: &F, jobs: &mut [J], helpers: &mut [H], workers: &mut [W], tools: &mut [T])
    requires jobs { AllCanRun J.can_run jobs.old }
    requires helpers { AllCanRun H.can_run helpers.old }
    requires workers { AllCanWork W.can_work workers.old tools.old }
    requires then { F.pre then.now }
    ensures jobs { AllZip J.comes_to jobs.old jobs.new }
    ensures helpers { AllZip H.comes_to helpers.old helpers.new }
    ensures workers { AllWorked W.work_gives workers.old tools.old workers.new tools.new }
{
    let Some((worker, rest)) = workers.split_first_mut() else {
        run_with_helpers(rt, then, jobs, helpers);
        return;
    };
    let Some((tool, others)) = tools.split_first_mut() else {
        unreachable!()
    };
    join_mut(
        rt,
        &mut ||
            requires { W.can_work worker.now tool.now }
            ensures { W.work_gives worker.entry.now tool.entry.now worker.exit.now tool.exit.now }
        { worker.work(rt, tool) },
        &mut ||
            requires shared { IsSync R.row × IsSync F.row }
            requires then { F.pre then.now }
            requires can { AllCanRun J.can_run jobs.now × AllCanRun H.can_run helpers.now }
            requires work { AllCanWork W.can_work rest.now others.now }
            ensures jobs { AllZip J.comes_to jobs.entry.now jobs.exit.now }
            ensures helpers { AllZip H.comes_to helpers.entry.now helpers.exit.now }
            ensures workers { AllWorked W.work_gives rest.entry.now others.entry.now
                rest.exit.now others.exit.now }
        { run_with_workers(rt, then, jobs, helpers, rest, others) },
    );
}
