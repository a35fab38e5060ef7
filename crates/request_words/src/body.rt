//! What a submission asks, by its body.
ghost use Rattle.std.specs.Prelude.{◌≡◌, IfOk};
ghost use Rattle.request_model.specs.declared.requests.Request.TheVariants as request;
ghost use Rattle.request_words.specs.{Refused.{IsGoRefused, IsLntRefused}, Bodies.{of_go, AsksGo, of_lnt, AsksLnt}};

use crate::NoMemory;
use go_bench_text::{GoFault, GoRun, read_go_with};
use line_text::{Name, Names};
use lnt_report::{LntRun, ReportFault, read_report};
use request_model::{RangePlace, Refusal, Request};
use sample_model::Samples;
use std::alloc::Global;

// What a submission of Go benchmark text asks.
pub(crate) fn go_asked(
    alloc: Global,
    names: &mut Names,
    machine: Name,
    commit: Name,
    run: Name,
    body: &[u8],
) -> Result<Result<Request, Refusal>, NoMemory>
    ensures { IfOk result (AsksGo body.now (of_go machine commit run)) }
{
    let GoRun { samples, ignored } = match read_go_with(alloc, names, body) {
        Ok(given) => given,
        Err(fault) => return go_refused(fault),
    };
    samples.limits();
    Ok(Ok(submission(alloc, (machine, commit, run), samples, ignored, None)?))
}

// What a submission of an LNT run asks.
pub(crate) fn lnt_asked(
    alloc: Global,
    machine: Name,
    run: Name,
    body: &[u8],
) -> Result<Result<Request, Refusal>, NoMemory>
    ensures { IfOk result (AsksLnt body.now (of_lnt machine run)) }
{
    let LntRun {
        machine: stated,
        commit,
        samples,
        ignored,
    } = match read_report(alloc, body) {
        Ok(given) => given,
        Err(fault) => return lnt_refused(fault),
    };
    Ok(Ok(submission(
        alloc,
        (machine, commit, run),
        samples,
        ignored,
        Some(stated),
    )?))
}

// A submission for a machine, a commit and a run, such that a copy of it takes no memory for the samples.
fn submission(
    alloc: Global,
    of: (Name, Name, Name),
    samples: Samples,
    ignored: u64,
    stated: Option<Name>,
) -> Result<Request, NoMemory>
    ensures { IfOk result (λ asked.
        asked ≡ request.Submit of.0 of.1 of.2 samples ignored stated) }
{
    let samples = samples.share(alloc)?;
    Ok(Request::Submit {
        machine: of.0,
        commit: of.1,
        run: of.2,
        samples,
        ignored,
        stated,
    })
}

// The refusal that a fault of Go benchmark text is.
fn go_refused(fault: GoFault) -> Result<Result<Request, Refusal>, NoMemory>
    ensures { IsGoRefused fault result }
{
    match fault {
        GoFault::NotText(offset) => Ok(Err(Refusal::NotText(offset))),
        GoFault::OutOfRange(number) => Ok(Err(Refusal::OutOfRange(RangePlace::Line(number)))),
        GoFault::Full(limit) => Ok(Err(Refusal::Full(limit))),
        GoFault::NoMemory => Err(NoMemory),
    }
}

// The refusal that a fault of an LNT run is.
fn lnt_refused(fault: ReportFault) -> Result<Result<Request, Refusal>, NoMemory>
    ensures { IsLntRefused fault result }
{
    match fault {
        ReportFault::NotText(offset) => Ok(Err(Refusal::NotText(offset))),
        ReportFault::NotJson(offset) => Ok(Err(Refusal::NotJson(offset))),
        ReportFault::TooDeep(offset) => Ok(Err(Refusal::TooDeep(offset))),
        ReportFault::NotReport { rule, member } => Ok(Err(Refusal::NotReport { rule, member })),
        ReportFault::OutOfRange { test, metric } => {
            Ok(Err(Refusal::OutOfRange(RangePlace::Sample { test, metric })))
        }
        ReportFault::Full(limit) => Ok(Err(Refusal::Full(limit))),
        ReportFault::NoMemory => Err(NoMemory),
    }
}
