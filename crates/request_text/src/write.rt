//! The text of a request.
ghost use Rattle.std.specs.Prelude.{◌≡◌, ℕ, List, ◌++◌, None, Some, All, length, IfOk, IfSome, IfNone, OnOk, OnErr, IsTrue, ◌↔◌, codes};
ghost use Rattle.lnt_report.specs.{Runs.IsGiven, Written.{compact, run_tree}};
ghost use Rattle.request_text.specs.Written.{head_line, IsBody, IsBodyOf, IsFirstNamed, IsFirstUnwritten, HasNoText, WrittenIsReadBack, IsReadAs, AsksBack};

use crate::NoMemory;
use crate::sound::sound;
use crate::write_line::put_line;
use go_bench_text::{PutFault, put_go};
use line_text::{Duplicate, Name, names_law, numbers_law, words_law};
use lnt_report::{LntRun, put_report};
use request_model::Request;
use sample_model::{Sample, Samples};
use std::alloc::Global;

/// Appends the text of a request: its line, in canonical spelling and with single spaces, and its body. `CannotWrite` names
/// the first sample without a spelling in such a body.
///
/// Linear in the text, which it takes memory for; changes nothing where there is none.
pub fn put_request(alloc: Global, out: &mut Vec<u8>, request: &Request) -> Result<(), PutFault>
    ensures ok { OnOk result ((text : List ℕ) × WrittenIsReadBack request.now text
        × (out.new.items ≡ out.old.items ++ text)) }
    ensures err { OnErr result (out.new.items ≡ out.old.items) }
    ensures cannot { (place : ℕ) → result ≡ Err (PutFault.CannotWrite place)
        → HasNoText request.now place }
{
    names_law();
    numbers_law();
    words_law();
    sound(request);
    let body = body_of(alloc, request)?;
    let Ok(text) = text_with(alloc, request, &body) else {
        return Err(PutFault::NoMemory);
    };
    if out.extend_from_slice(&text).is_err() {
        return Err(PutFault::NoMemory);
    }
    Ok(())
}

// The whole text of a request with this body.
fn text_with(alloc: Global, request: &Request, body: &[u8]) -> Result<Vec<u8>, NoMemory>
    ensures { IfOk result
        (λ text. text.items ≡ head_line request.now (length body.now) ++ body.now) }
{
    let mut text = Vec::new(alloc);
    put_line(alloc, &mut text, request, body.len() as u64)?;
    text.extend_from_slice(body)?;
    Ok(text)
}

// The body of a request; no bytes where its form has none.
fn body_of(alloc: Global, request: &Request) -> Result<Vec<u8>, PutFault>
    ensures ok { IfOk result (λ body. IsBody request.now body.items) }
    ensures back { IfOk result (λ body. AsksBack request.now body.items) }
    ensures cannot { (place : ℕ) → result ≡ Err (PutFault.CannotWrite place)
        → HasNoText request.now place }
{
    match request {
        Request::Submit {
            commit,
            samples,
            stated,
            ..
        } => submitted_body(alloc, commit, samples, stated),
        _ => Ok(Vec::new(alloc)),
    }
}

// The body of a submission.
fn submitted_body(
    alloc: Global,
    commit: &Name,
    samples: &Samples,
    stated: &Option<Name>,
) -> Result<Vec<u8>, PutFault>
    ensures ok { IfOk result (λ body. IsBodyOf commit.now samples.now stated.now body.items) }
    ensures back { IfOk result (λ body. IsReadAs commit.now samples.now stated.now body.items) }
    ensures cannot { (place : ℕ) → result ≡ Err (PutFault.CannotWrite place)
        → IsFirstUnwritten samples.now stated.now place }
{
    match stated {
        None => put_go(alloc, samples),
        Some(machine) => lnt_body(alloc, machine, commit, samples),
    }
}

// The samples as an LNT run.
fn lnt_body(
    alloc: Global,
    machine: &Name,
    commit: &Name,
    samples: &Samples,
) -> Result<Vec<u8>, PutFault>
    ensures ok { IfOk result
        (λ body. body.items ≡ compact (run_tree machine.now commit.now samples.now)) }
    ensures back { IfOk result
        (λ body. IsReadAs commit.now samples.now (Some machine.now) body.items) }
    ensures cannot { (place : ℕ) → result ≡ Err (PutFault.CannotWrite place)
        → IsFirstNamed samples.now place }
{
    if let Some(place) = first_named(samples.as_slice()) {
        return Err(PutFault::CannotWrite(place as u64));
    }
    let Ok(body) = given_body(alloc, machine, commit, samples) else {
        return Err(PutFault::NoMemory);
    };
    Ok(body)
}

// The samples as an LNT run, which can give each of them.
fn given_body(
    alloc: Global,
    machine: &Name,
    commit: &Name,
    samples: &Samples,
) -> Result<Vec<u8>, NoMemory>
    requires { All IsGiven samples.now }
    ensures ok { IfOk result
        (λ body. body.items ≡ compact (run_tree machine.now commit.now samples.now)) }
    ensures back { IfOk result
        (λ body. IsReadAs commit.now samples.now (Some machine.now) body.items) }
{
    let run = run_of(alloc, machine, commit, samples)?;
    Ok(put_report(alloc, &run)?)
}

// The LNT run of the samples.
fn run_of(
    alloc: Global,
    machine: &Name,
    commit: &Name,
    samples: &Samples,
) -> Result<LntRun, NoMemory>
    requires { All IsGiven samples.now }
    ensures machine { IfOk result (λ run. run.machine ≡ machine.now) }
    ensures commit { IfOk result (λ run. run.commit ≡ commit.now) }
    ensures samples { IfOk result (λ run. run.samples ≡ samples.now) }
{
    Ok(LntRun {
        machine: machine.copy(alloc)?,
        commit: commit.copy(alloc)?,
        samples: samples.copy(alloc)?,
        ignored: 0,
    })
}

// The place of the first sample whose metric is `name`.
fn first_named(samples: &[Sample]) -> Option<usize>
    ensures some { IfSome result (λ place. IsFirstNamed samples.now place) }
    ensures none { IfNone result (All IsGiven samples.now) }
{
    for (place, sample) in samples.iter().enumerate() {
        if is_named(sample) {
            return Some(place);
        }
    }
    None
}

// Whether the metric is `name`.
fn is_named(sample: &Sample) -> bool
    ensures { IsTrue result ↔ (sample.now.metric ≡ codes "name") }
{
    sample.metric.as_str() == "name"
}
