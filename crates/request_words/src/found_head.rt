//! The heads of requests about what was found in a series, and of reports.
ghost use Rattle.std.specs.Prelude.{◌≡◌, ◌≢◌, ℕ, ◌^◌, ◌<◌, Bool, List, [], ◌∷◌, decimal, codes, IfOk, IfSome, IfNone};
ghost use Rattle.regression_state.specs.Moves.{word};
ghost use Rattle.request_words.specs.{Forms.{job_word, report_word}, Bodies.job_request, Heads.IsHeadBehind};

use crate::NoMemory;
use crate::head::{Head, formless, unnamed};
use crate::names::{Last, machine_named, three_named, two_named};
use crate::verb::JobVerb;
use crate::words::Words;
use line_text::{Name, Names, read_u64};
use regression_state::{State, read_state};
use request_model::Request;
use std::alloc::Global;

// `state M REGRESSION STATE`.
pub(crate) fn state_head(alloc: Global, names: &mut Names, words: Words) -> Result<Head, NoMemory>
    ensures { IfOk result (λ head. IsHeadBehind (codes "state") words.entry head) }
{
    let Some((m, regression, state)) = state_words(words) else {
        return Ok(formless());
    };
    let Some(machine) = machine_named(alloc, names, m)? else {
        return Ok(unnamed(0));
    };
    Ok(Head::Asked(Request::SetState {
        machine,
        regression,
        state,
    }))
}

// The words of a move to a state.
fn state_words<'a>(mut words: Words<'a>) -> Option<(&'a [u8], u64, State)>
    ensures some { IfSome result
        (λ parts. words.entry ≡ parts.0.now ∷ decimal parts.1 ∷ word parts.2 ∷ []) }
    ensures none { IfNone result ((m : List ℕ) (n : ℕ) (state : State)
        → n < 2 ^ 64 → words.entry ≢ m ∷ decimal n ∷ word state ∷ []) }
{
    let m = words.next()?;
    let n = read_u64(words.next()?)?;
    let state = read_state(words.one()?)?;
    Some((m, n, state))
}

// `bisect M LO HI`.
pub(crate) fn bisect_head(
    alloc: Global,
    names: &mut Names,
    mut words: Words,
) -> Result<Head, NoMemory>
    ensures { IfOk result (λ head. IsHeadBehind (codes "bisect") words.entry head) }
{
    let Some((m, l, h)) = words.three() else {
        return Ok(formless());
    };
    let Some((machine, lo, hi)) = three_named(alloc, names, m, l, h, Last::Any)? else {
        return Ok(unnamed(0));
    };
    Ok(Head::Asked(Request::Bisect { machine, lo, hi }))
}

// `answer M JOB COMMIT STATUS`.
pub(crate) fn answer_head(alloc: Global, names: &mut Names, words: Words) -> Result<Head, NoMemory>
    ensures { IfOk result (λ head. IsHeadBehind (codes "answer") words.entry head) }
{
    let Some((m, job, c, status)) = answer_words(words) else {
        return Ok(formless());
    };
    let Some((machine, commit)) = two_named(alloc, names, m, c, Last::Any)? else {
        return Ok(unnamed(0));
    };
    Ok(Head::Asked(Request::Answer {
        machine,
        job,
        commit,
        status,
    }))
}

// The words of an answer.
fn answer_words<'a>(mut words: Words<'a>) -> Option<(&'a [u8], u64, &'a [u8], u8)>
    ensures some { IfSome result (λ parts. words.entry
        ≡ parts.0.now ∷ decimal parts.1 ∷ parts.2.now ∷ decimal parts.3 ∷ []) }
    ensures none { IfNone result ((m : List ℕ) (job : ℕ) (c : List ℕ) (status : ℕ) → job < 2 ^ 64
        → status < 2 ^ 8 → words.entry ≢ m ∷ decimal job ∷ c ∷ decimal status ∷ []) }
{
    let m = words.next()?;
    let job = read_u64(words.next()?)?;
    let c = words.next()?;
    let status = words.status()?;
    Some((m, job, c, status))
}

// `resume M JOB` and `job M JOB`.
pub(crate) fn job_head(
    alloc: Global,
    names: &mut Names,
    words: Words,
    asked: JobVerb,
) -> Result<Head, NoMemory>
    ensures { IfOk result (λ head. IsHeadBehind (job_word asked) words.entry head) }
{
    let Some((m, job)) = one_and_number(words) else {
        return Ok(formless());
    };
    let Some(machine) = machine_named(alloc, names, m)? else {
        return Ok(unnamed(0));
    };
    Ok(Head::Asked(job_request(asked, machine, job)))
}

// A word, and a number behind it.
fn one_and_number<'a>(mut words: Words<'a>) -> Option<(&'a [u8], u64)>
    ensures some { IfSome result (λ parts. words.entry ≡ parts.0.now ∷ decimal parts.1 ∷ []) }
    ensures none { IfNone result ((m : List ℕ) (n : ℕ)
        → n < 2 ^ 64 → words.entry ≢ m ∷ decimal n ∷ []) }
{
    let m = words.next()?;
    let n = words.number()?;
    Some((m, n))
}

// What is asked of a bisection.
fn job_request(asked: JobVerb, machine: Name, job: u64) -> Request
    ensures { result ≡ job_request asked machine job }
{
    match asked {
        JobVerb::Resume => Request::Resume { machine, job },
        JobVerb::Job => Request::Job { machine, job },
    }
}

// `report M text` and `report M json`.
pub(crate) fn report_head(alloc: Global, names: &mut Names, words: Words) -> Result<Head, NoMemory>
    ensures { IfOk result (λ head. IsHeadBehind (codes "report") words.entry head) }
{
    let Some((m, json)) = report_words(words) else {
        return Ok(formless());
    };
    let Some(machine) = machine_named(alloc, names, m)? else {
        return Ok(unnamed(0));
    };
    Ok(Head::Asked(Request::Report { machine, json }))
}

// The words of a report: a machine, and whether it is asked for as JSON.
fn report_words<'a>(mut words: Words<'a>) -> Option<(&'a [u8], bool)>
    ensures some { IfSome result (λ parts. words.entry ≡ parts.0.now ∷ report_word parts.1 ∷ []) }
    ensures none { IfNone result ((m : List ℕ) (json : Bool)
        → words.entry ≢ m ∷ report_word json ∷ []) }
{
    let (m, kind) = words.two()?;
    let json = read_kind(kind)?;
    Some((m, json))
}

// Whether a word asks for a report as JSON, or else as text; none where it is neither word.
fn read_kind(word: &[u8]) -> Option<bool>
    ensures some { IfSome result (λ json. word.now ≡ report_word json) }
    ensures none { IfNone result ((json : Bool) → word.now ≢ report_word json) }
{
    if word == b"json".as_slice() {
        Some(true)
    } else if word == b"text".as_slice() {
        Some(false)
    } else {
        None
    }
}
