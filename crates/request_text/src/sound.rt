//! What a request keeps.
ghost use Rattle.std.specs.Prelude.{◌<◌, ◌≤◌, ◌^◌, length, IfSome};
ghost use Rattle.line_text.specs.Names.{IsName};
ghost use Rattle.metric_table.specs.{Limits.most, declared.limits.Limit.TheVariants.RunSamples};
ghost use Rattle.request_text.specs.Written.{IsSound};

use line_text::Name;
use request_model::Request;
use sample_model::Samples;

// Says what a request keeps. Does nothing: its contract is what it is for.
pub(crate) fn sound(request: &Request)
    ensures { IsSound request.now }
{
    match request {
        Request::Machine { machine } => machine.bytes_law(),
        Request::Commit {
            machine,
            number,
            name,
        } => sound_commit(machine, *number, name),
        Request::Submit {
            machine,
            commit,
            run,
            samples,
            ..
        } => sound_run(machine, commit, run, samples),
        Request::Retract { machine, run } => two_names(machine, run),
        Request::Tune {
            machine,
            metric,
            length,
            ..
        } => sound_setting(machine, metric, *length),
        Request::Calibrate {
            machine,
            test,
            metric,
            factor,
        } => three_and_number(machine, test, metric, *factor),
        Request::Segment {
            machine,
            test,
            metric,
        }
        | Request::Changes {
            machine,
            test,
            metric,
        }
        | Request::Verify {
            machine,
            test,
            metric,
        } => three_names(machine, test, metric),
        Request::Regress {
            machine,
            test,
            metric,
            change,
        } => three_and_number(machine, test, metric, *change),
        Request::SetState {
            machine,
            regression,
            ..
        } => one_and_number(machine, *regression),
        Request::Bisect { machine, lo, hi } => three_names(machine, lo, hi),
        Request::Answer {
            machine,
            job,
            commit,
            status,
        } => sound_answer(machine, *job, commit, *status),
        Request::Resume { machine, job } | Request::Job { machine, job } => {
            one_and_number(machine, *job)
        }
        Request::Runs { machine } | Request::Report { machine, .. } => machine.bytes_law(),
    }
}

// The same of a name and a number.
fn one_and_number(name: &Name, number: u64)
    ensures { IsName name.now × (number < 2 ^ 64) }
{
    name.bytes_law();
}

// The same of two names.
fn two_names(first: &Name, second: &Name)
    ensures { IsName first.now × IsName second.now }
{
    first.bytes_law();
    second.bytes_law();
}

// The same of a setting.
fn sound_setting(machine: &Name, metric: &Name, length: Option<u8>)
    ensures { IsName machine.now × IsName metric.now × IfSome length (λ n. n < 2 ^ 64) }
{
    two_names(machine, metric);
    if let Some(least) = length {
        fits(least);
    }
}

// The same of a number of 8 bits.
fn fits(number: u8)
    ensures { number < 2 ^ 64 }
{}

// The same of three names.
fn three_names(first: &Name, second: &Name, third: &Name)
    ensures { IsName first.now × IsName second.now × IsName third.now }
{
    two_names(first, second);
    third.bytes_law();
}

// The same of three names and a number.
fn three_and_number(first: &Name, second: &Name, third: &Name, number: u64)
    ensures { IsName first.now × IsName second.now × IsName third.now × (number < 2 ^ 64) }
{
    three_names(first, second, third);
}

// The same of an answer.
fn sound_answer(machine: &Name, job: u64, commit: &Name, status: u8)
    ensures { IsName machine.now × (job < 2 ^ 64) × IsName commit.now × (status < 2 ^ 8) }
{
    two_names(machine, commit);
}

// The same of a commit.
fn sound_commit(machine: &Name, number: u64, name: &Name)
    ensures { IsName machine.now × (number < 2 ^ 64) × IsName name.now }
{
    two_names(machine, name);
}

// The same of a run.
fn sound_run(machine: &Name, commit: &Name, run: &Name, samples: &Samples)
    ensures { IsName machine.now × IsName commit.now × IsName run.now
        × (length samples.now ≤ most RunSamples) }
{
    two_names(machine, commit);
    run.bytes_law();
    samples.limits();
}
