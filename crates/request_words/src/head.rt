//! The head of a request: what its line asks before its body is read.
ghost use Rattle.std.specs.Prelude.{◌≡◌, ◌≢◌, ◌↔◌, IsTrue, ℕ, ◌^◌, ◌<◌, List, [], ◌∷◌, map, option_to_list, Option, decimal, codes, IfOk, IfSome, IfNone};
ghost use Rattle.line_text.specs.Numbers.{IsNumber};
ghost use Rattle.request_words.specs.{Forms.{IsNumberOf, machine_word, number_verb, series_word}, Bodies.{machine_request, number_request, series_request}, Heads.{IsHead, IsHeadBehind, line_refusal}, Items.{Asks, Counts}};

use crate::NoMemory;
use crate::amounts::{is_factor, length_of, penalty_of};
use crate::body::{go_asked, lnt_asked};
use crate::found_head::{answer_head, bisect_head, job_head, report_head, state_head};
use crate::names::{Last, machine_named, three_named, two_named};
use crate::verb::{MachineVerb, NumberVerb, SeriesVerb, Verb, read_verb};
use crate::words::Words;
use line_text::{Name, Names, is_number, read_u64};
use request_model::{Refusal, Request};
use std::alloc::Global;

/// The most bytes of a body.
pub const BODY_LIMIT: u64 = 8_388_608;

/// Why a request line is refused before its body is read. It owns nothing, so that a head is cheap to hold and to drop.
#[derive(Clone, Copy)]
pub enum LineFault {
    /// It has no form.
    BadRequest,
    /// A word that must spell a name spells none, or that of a metric a longer one than a metric may have.
    BadName,
    /// A penalty or its factor is out of range.
    BadPenalty,
    /// A least length is out of range.
    BadLength,
    /// More bytes belong to it than a body may have.
    BodyTooLong,
}

/// What a request line asks before its body is read.
#[derive(Drop)]
pub enum Head {
    /// This is refused, whatever the bytes of its body, which are so many.
    Refused(LineFault, u64),
    /// This is asked; it has no body.
    Asked(Request),
    /// A run is handed in as Go benchmark text of so many bytes: machine, commit, run.
    Go(Name, Name, Name, u64),
    /// A run is handed in as an LNT run of so many bytes: machine, run.
    Lnt(Name, Name, u64),
}

/// What a request line asks before its body is read, whatever the line.
///
/// The names of machines are shared with those in `names`. Linear in the line; takes memory for its names alone.
pub fn read_head(alloc: Global, names: &mut Names, line: &[u8]) -> Result<Head, NoMemory>
    ensures { IfOk result (λ head. IsHead line.now head) }
{
    let mut words = Words::of(line);
    let Some(word) = words.next() else {
        return Ok(formless());
    };
    let Some(verb) = read_verb(word) else {
        return Ok(formless());
    };
    match verb {
        Verb::Machine => machine_head(alloc, names, words, MachineVerb::Machine),
        Verb::Commit => commit_head(alloc, names, words),
        Verb::Submit => submit_head(alloc, names, words),
        Verb::Retract => retract_head(alloc, names, words),
        Verb::Tune => tune_head(alloc, names, words),
        Verb::Number(asked) => number_head(alloc, names, words, asked),
        Verb::Series(asked) => series_head(alloc, names, words, asked),
        Verb::State => state_head(alloc, names, words),
        Verb::Bisect => bisect_head(alloc, names, words),
        Verb::Answer => answer_head(alloc, names, words),
        Verb::Job(asked) => job_head(alloc, names, words, asked),
        Verb::Runs => machine_head(alloc, names, words, MachineVerb::Runs),
        Verb::Report => report_head(alloc, names, words),
    }
}

/// What a line of this head asks with this body: a request, or the refusal that the line or its body meets.
///
/// Linear in the body; takes memory for its samples.
pub fn item_of(
    alloc: Global,
    names: &mut Names,
    head: Head,
    body: &[u8],
) -> Result<Result<Request, Refusal>, NoMemory>
    ensures { IfOk result (λ item. (line : List ℕ) → IsHead line head → Asks line body.now item) }
{
    match head {
        Head::Refused(fault, _) => Ok(Err(line_refusal(fault))),
        Head::Asked(request) => Ok(Ok(request)),
        Head::Go(machine, commit, run, _) => go_asked(alloc, names, machine, commit, run, body),
        Head::Lnt(machine, run, _) => lnt_asked(alloc, machine, run, body),
    }
}

// The refusal that a fault of a line is.
fn line_refusal(fault: LineFault) -> Refusal
    ensures { result ≡ line_refusal fault }
{
    match fault {
        LineFault::BadRequest => Refusal::BadRequest,
        LineFault::BadName => Refusal::BadName,
        LineFault::BadPenalty => Refusal::BadPenalty,
        LineFault::BadLength => Refusal::BadLength,
        LineFault::BodyTooLong => Refusal::BodyTooLong,
    }
}

/// How many bytes behind a line of this head belong to it.
pub fn body_count(head: &Head) -> u64
    ensures { (line : List ℕ) → IsHead line head.now → Counts line result }
{
    match head {
        Head::Refused(_, count) => *count,
        Head::Asked(_) => 0,
        Head::Go(_, _, _, len) => *len,
        Head::Lnt(_, _, len) => *len,
    }
}

// The refusal of a line of no form.
pub(crate) fn formless() -> Head
    ensures { result ≡ Head.Refused LineFault.BadRequest 0 }
{
    Head::Refused(LineFault::BadRequest, 0)
}

// The refusal of a line with a word that must be a name and is none.
pub(crate) fn unnamed(count: u64) -> Head
    ensures { result ≡ Head.Refused LineFault.BadName count }
{
    Head::Refused(LineFault::BadName, count)
}

// `machine M` and `runs M`.
fn machine_head(
    alloc: Global,
    names: &mut Names,
    mut words: Words,
    asked: MachineVerb,
) -> Result<Head, NoMemory>
    ensures { IfOk result (λ head. IsHeadBehind (machine_word asked) words.entry head) }
{
    let Some(m) = words.one() else {
        return Ok(formless());
    };
    let Some(machine) = machine_named(alloc, names, m)? else {
        return Ok(unnamed(0));
    };
    Ok(Head::Asked(machine_request(asked, machine)))
}

// What is asked of a machine.
fn machine_request(asked: MachineVerb, machine: Name) -> Request
    ensures { result ≡ machine_request asked machine }
{
    match asked {
        MachineVerb::Machine => Request::Machine { machine },
        MachineVerb::Runs => Request::Runs { machine },
    }
}

// `retract M RUN`.
fn retract_head(alloc: Global, names: &mut Names, mut words: Words) -> Result<Head, NoMemory>
    ensures { IfOk result (λ head. IsHeadBehind (codes "retract") words.entry head) }
{
    let Some((m, r)) = words.two() else {
        return Ok(formless());
    };
    let Some((machine, run)) = two_named(alloc, names, m, r, Last::Any)? else {
        return Ok(unnamed(0));
    };
    Ok(Head::Asked(Request::Retract { machine, run }))
}

// `tune M METRIC PENALTY` and `tune M METRIC PENALTY LENGTH`.
fn tune_head(alloc: Global, names: &mut Names, words: Words) -> Result<Head, NoMemory>
    ensures { IfOk result (λ head. IsHeadBehind (codes "tune") words.entry head) }
{
    let Some((m, x, p, given)) = tune_words(words) else {
        return Ok(formless());
    };
    let Some((machine, metric)) = two_named(alloc, names, m, x, Last::Metric)? else {
        return Ok(unnamed(0));
    };
    let Some(penalty) = penalty_of(p) else {
        return Ok(Head::Refused(LineFault::BadPenalty, 0));
    };
    let Some(length) = length_of(given) else {
        return Ok(Head::Refused(LineFault::BadLength, 0));
    };
    Ok(Head::Asked(Request::Tune {
        machine,
        metric,
        penalty,
        length,
    }))
}

// The words of a penalty, and the least length, if one is given.
fn tune_words<'a>(mut words: Words<'a>) -> Option<(&'a [u8], &'a [u8], &'a [u8], Option<u64>)>
    ensures some { IfSome result (λ parts. (words.entry ≡ parts.0.now ∷ parts.1.now
        ∷ parts.2.now ∷ map decimal (option_to_list parts.3)) × IsNumber parts.2.now) }
    ensures fits { IfSome result (λ parts. IfSome parts.3 (λ n. n < 2 ^ 64)) }
    ensures none { IfNone result ((m x p : List ℕ) (given : Option ℕ)
        → IsNumber p → IfSome given (λ n. n < 2 ^ 64)
        → words.entry ≢ m ∷ x ∷ p ∷ map decimal (option_to_list given)) }
{
    let m = words.next()?;
    let x = words.next()?;
    let p = words.next()?;
    if !is_number(p) {
        return None;
    }
    if words.are_over() {
        return Some((m, x, p, None));
    }
    let given = words.number()?;
    Some((m, x, p, Some(given)))
}

// `calibrate M TEST METRIC FACTOR` and `regress M TEST METRIC CHANGE`.
fn number_head(
    alloc: Global,
    names: &mut Names,
    words: Words,
    asked: NumberVerb,
) -> Result<Head, NoMemory>
    ensures { IfOk result (λ head. IsHeadBehind (number_verb asked) words.entry head) }
{
    let Some((m, t, x, number)) = three_and_number(words) else {
        return Ok(formless());
    };
    let Some((machine, test, metric)) = three_named(alloc, names, m, t, x, Last::Metric)? else {
        return Ok(unnamed(0));
    };
    if !is_number_of(asked, number) {
        return Ok(Head::Refused(LineFault::BadPenalty, 0));
    }
    Ok(Head::Asked(number_request(asked, machine, test, metric, number)))
}

// Whether the number is one that may be asked with: a factor has a greatest one.
fn is_number_of(asked: NumberVerb, number: u64) -> bool
    ensures { IsTrue result ↔ IsNumberOf asked number }
{
    match asked {
        NumberVerb::Calibrate => is_factor(number),
        NumberVerb::Regress => true,
    }
}

// What is asked of a series with a number.
fn number_request(
    asked: NumberVerb,
    machine: Name,
    test: Name,
    metric: Name,
    number: u64,
) -> Request
    ensures { result ≡ number_request asked machine test metric number }
{
    match asked {
        NumberVerb::Calibrate => Request::Calibrate {
            machine,
            test,
            metric,
            factor: number,
        },
        NumberVerb::Regress => Request::Regress {
            machine,
            test,
            metric,
            change: number,
        },
    }
}

// `segment M TEST METRIC`, `changes M TEST METRIC` and `verify M TEST METRIC`.
fn series_head(
    alloc: Global,
    names: &mut Names,
    mut words: Words,
    asked: SeriesVerb,
) -> Result<Head, NoMemory>
    ensures { IfOk result (λ head. IsHeadBehind (series_word asked) words.entry head) }
{
    let Some((m, t, x)) = words.three() else {
        return Ok(formless());
    };
    let Some((machine, test, metric)) = three_named(alloc, names, m, t, x, Last::Metric)? else {
        return Ok(unnamed(0));
    };
    Ok(Head::Asked(series_request(asked, machine, test, metric)))
}

// What is asked of a series.
fn series_request(asked: SeriesVerb, machine: Name, test: Name, metric: Name) -> Request
    ensures { result ≡ series_request asked machine test metric }
{
    match asked {
        SeriesVerb::Segment => Request::Segment {
            machine,
            test,
            metric,
        },
        SeriesVerb::Changes => Request::Changes {
            machine,
            test,
            metric,
        },
        SeriesVerb::Verify => Request::Verify {
            machine,
            test,
            metric,
        },
    }
}

// `commit M NUMBER NAME`.
fn commit_head(alloc: Global, names: &mut Names, words: Words) -> Result<Head, NoMemory>
    ensures { IfOk result (λ head. IsHeadBehind (codes "commit") words.entry head) }
{
    let Some((m, number, n)) = commit_words(words) else {
        return Ok(formless());
    };
    let Some((machine, name)) = two_named(alloc, names, m, n, Last::Any)? else {
        return Ok(unnamed(0));
    };
    Ok(Head::Asked(Request::Commit {
        machine,
        number,
        name,
    }))
}

// The words of a commit.
fn commit_words<'a>(mut words: Words<'a>) -> Option<(&'a [u8], u64, &'a [u8])>
    ensures some { IfSome result
        (λ parts. words.entry ≡ parts.0.now ∷ decimal parts.1 ∷ parts.2.now ∷ []) }
    ensures none { IfNone result ((m : List ℕ) (number : ℕ) (name : List ℕ)
        → number < 2 ^ 64 → words.entry ≢ m ∷ decimal number ∷ name ∷ []) }
{
    let m = words.next()?;
    let number = read_u64(words.next()?)?;
    let name = words.one()?;
    Some((m, number, name))
}

// `submit go` and `submit lnt`.
fn submit_head(alloc: Global, names: &mut Names, mut words: Words) -> Result<Head, NoMemory>
    ensures { IfOk result (λ head. IsHeadBehind (codes "submit") words.entry head) }
{
    let Some(kind) = words.next() else {
        return Ok(formless());
    };
    if kind == b"go".as_slice() {
        return go_head(alloc, names, words);
    }
    if kind == b"lnt".as_slice() {
        return lnt_head(alloc, names, words);
    }
    Ok(formless())
}

// `submit go M COMMIT RUN LEN`.
fn go_head(alloc: Global, names: &mut Names, words: Words) -> Result<Head, NoMemory>
    ensures { IfOk result (λ head. IsHeadBehind (codes "submit") (codes "go" ∷ words.entry) head) }
{
    let Some((m, c, r, len)) = three_and_number(words) else {
        return Ok(formless());
    };
    if len > BODY_LIMIT {
        return Ok(Head::Refused(LineFault::BodyTooLong, len));
    }
    let Some((machine, commit, run)) = three_named(alloc, names, m, c, r, Last::Any)? else {
        return Ok(unnamed(len));
    };
    Ok(Head::Go(machine, commit, run, len))
}

// Three words, and a number behind them.
fn three_and_number<'a>(mut words: Words<'a>) -> Option<(&'a [u8], &'a [u8], &'a [u8], u64)>
    ensures some { IfSome result
        (λ parts. words.entry ≡ parts.0.now ∷ parts.1.now ∷ parts.2.now ∷ decimal parts.3 ∷ []) }
    ensures none { IfNone result ((first second third : List ℕ) (n : ℕ)
        → n < 2 ^ 64 → words.entry ≢ first ∷ second ∷ third ∷ decimal n ∷ []) }
{
    let first = words.next()?;
    let second = words.next()?;
    let third = words.next()?;
    let n = words.number()?;
    Some((first, second, third, n))
}

// `submit lnt M RUN LEN`.
fn lnt_head(alloc: Global, names: &mut Names, words: Words) -> Result<Head, NoMemory>
    ensures { IfOk result (λ head. IsHeadBehind (codes "submit") (codes "lnt" ∷ words.entry) head) }
{
    let Some((m, r, len)) = lnt_words(words) else {
        return Ok(formless());
    };
    if len > BODY_LIMIT {
        return Ok(Head::Refused(LineFault::BodyTooLong, len));
    }
    let Some((machine, run)) = two_named(alloc, names, m, r, Last::Any)? else {
        return Ok(unnamed(len));
    };
    Ok(Head::Lnt(machine, run, len))
}

// The words of a submission of an LNT run.
fn lnt_words<'a>(mut words: Words<'a>) -> Option<(&'a [u8], &'a [u8], u64)>
    ensures some { IfSome result
        (λ parts. words.entry ≡ parts.0.now ∷ parts.1.now ∷ decimal parts.2 ∷ []) }
    ensures none { IfNone result ((m r : List ℕ) (len : ℕ)
        → len < 2 ^ 64 → words.entry ≢ m ∷ r ∷ decimal len ∷ []) }
{
    let m = words.next()?;
    let r = words.next()?;
    let len = words.number()?;
    Some((m, r, len))
}
