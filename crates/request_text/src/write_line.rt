//! The line of a request.
ghost use Rattle.std.specs.{Prelude.{◌≡◌, ◌∷◌, ◌++◌, map, option_to_list, decimal, OnOk}, Fmt.signed_decimal};
ghost use Rattle.line_text.specs.Names.{spelling};
ghost use Rattle.request_model.specs.Lines.{line_of};
ghost use Rattle.request_words.specs.Forms.{words_in, report_word};
ghost use Rattle.request_words.specs.Forms as form;
ghost use Rattle.request_text.specs.{Words.{next, written}, Written.head_line};

use crate::NoMemory;
use Word::{Amount, Named, Number, Said};
use line_text::{Name, put_i128, put_name, put_u64};
use request_model::Request;
use std::alloc::Global;

// A word of a line.
#[derive(Clone, Copy)]
enum Word<'a> {
    // This text.
    Said(&'a str),
    // A name, in its spelling.
    Named(&'a Name),
    // A number.
    Number(u64),
    // A signed number.
    Amount(i128),
}

// Appends the line of a request whose body has so many bytes.
pub(crate) fn put_line(
    alloc: Global,
    out: &mut Vec<u8>,
    request: &Request,
    len: u64,
) -> Result<(), NoMemory>
    ensures { OnOk result (out.new.items ≡ out.old.items ++ head_line request.now len) }
{
    match request {
        Request::Machine { machine } => put_words(alloc, out, "machine", &[Named(machine)]),
        Request::Commit {
            machine,
            number,
            name,
        } => put_words(
            alloc,
            out,
            "commit",
            &[Named(machine), Number(*number), Named(name)],
        ),
        Request::Submit {
            machine,
            commit,
            run,
            stated,
            ..
        } => match stated {
            None => {
                let words = [
                    Said("go"),
                    Named(machine),
                    Named(commit),
                    Named(run),
                    Number(len),
                ];
                put_words(alloc, out, "submit", &words)
            }
            Some(_) => {
                let words = [Said("lnt"), Named(machine), Named(run), Number(len)];
                put_words(alloc, out, "submit", &words)
            }
        },
        Request::Retract { machine, run } => {
            put_words(alloc, out, "retract", &[Named(machine), Named(run)])
        }
        Request::Tune {
            machine,
            metric,
            penalty,
            length,
        } => put_tune(alloc, out, machine, metric, *penalty, *length),
        Request::Calibrate {
            machine,
            test,
            metric,
            factor,
        } => put_series(
            alloc,
            out,
            "calibrate",
            machine,
            test,
            metric,
            Some(*factor),
        ),
        Request::Segment {
            machine,
            test,
            metric,
        } => put_series(alloc, out, "segment", machine, test, metric, None),
        Request::Changes {
            machine,
            test,
            metric,
        } => put_series(alloc, out, "changes", machine, test, metric, None),
        Request::Verify {
            machine,
            test,
            metric,
        } => put_series(alloc, out, "verify", machine, test, metric, None),
        Request::Regress {
            machine,
            test,
            metric,
            change,
        } => put_series(alloc, out, "regress", machine, test, metric, Some(*change)),
        Request::SetState {
            machine,
            regression,
            state,
        } => {
            let words = [Named(machine), Number(*regression), Said(state.word())];
            put_words(alloc, out, "state", &words)
        }
        Request::Bisect { machine, lo, hi } => {
            put_words(
                alloc,
                out,
                "bisect",
                &[Named(machine), Named(lo), Named(hi)],
            )
        }
        Request::Answer {
            machine,
            job,
            commit,
            status,
        } => {
            let status = Number(u64::from(*status));
            let words = [Named(machine), Number(*job), Named(commit), status];
            put_words(alloc, out, "answer", &words)
        }
        Request::Resume { machine, job } => {
            put_words(alloc, out, "resume", &[Named(machine), Number(*job)])
        }
        Request::Job { machine, job } => {
            put_words(alloc, out, "job", &[Named(machine), Number(*job)])
        }
        Request::Runs { machine } => put_words(alloc, out, "runs", &[Named(machine)]),
        Request::Report { machine, json } => {
            put_words(
                alloc,
                out,
                "report",
                &[Named(machine), Said(report_kind(*json))],
            )
        }
    }
}

// Appends a line of a first word, the names of a series, and a number if there is one.
fn put_series<'a>(
    alloc: Global,
    out: &mut Vec<u8>,
    first: &str,
    machine: &'a Name,
    test: &'a Name,
    metric: &'a Name,
    number: Option<u64>,
) -> Result<(), NoMemory>
    ensures { OnOk result (out.new.items ≡ out.old.items ++ line_of (first.now
        ∷ spelling machine.now ∷ spelling test.now ∷ spelling metric.now
        ∷ map decimal (option_to_list number))) }
{
    match number {
        None => {
            let words = [Named(machine), Named(test), Named(metric)];
            put_words(alloc, out, first, &words)
        }
        Some(n) => {
            let words = [Named(machine), Named(test), Named(metric), Number(n)];
            put_words(alloc, out, first, &words)
        }
    }
}

// Appends the line of a penalty.
fn put_tune<'a>(
    alloc: Global,
    out: &mut Vec<u8>,
    machine: &'a Name,
    metric: &'a Name,
    penalty: i128,
    given: Option<u8>,
) -> Result<(), NoMemory>
    ensures { OnOk result (out.new.items ≡ out.old.items ++ line_of (words_in (form.tune
        (spelling machine.now) (spelling metric.now) (signed_decimal penalty) given))) }
{
    match given {
        None => {
            let words = [Named(machine), Named(metric), Amount(penalty)];
            put_words(alloc, out, "tune", &words)
        }
        Some(least) => {
            let least = Number(u64::from(least));
            let words = [Named(machine), Named(metric), Amount(penalty), least];
            put_words(alloc, out, "tune", &words)
        }
    }
}

// The word for a report as JSON or as text.
fn report_kind(json: bool) -> &'static str
    ensures { result.now ≡ report_word json }
{
    if json { "json" } else { "text" }
}

// Appends a line of a first word and of these.
fn put_words(alloc: Global, out: &mut Vec<u8>, first: &str, words: &[Word]) -> Result<(), NoMemory>
    ensures { OnOk result (out.new.items ≡ out.old.items ++ written first.now words.now) }
{
    out.extend_from_slice(first.as_bytes())?;
    for word in words {
        put_word(alloc, out, word)?;
    }
    out.push(b'\n')?;
    Ok(())
}

// Appends a space and a word.
fn put_word(alloc: Global, out: &mut Vec<u8>, word: &Word) -> Result<(), NoMemory>
    ensures { OnOk result (out.new.items ≡ out.old.items ++ next word.now) }
{
    out.push(b' ')?;
    match word {
        Said(text) => {
            out.extend_from_slice(text.as_bytes())?;
            Ok(())
        }
        Named(name) => {
            put_name(alloc, out, name)?;
            Ok(())
        }
        Number(n) => {
            put_u64(alloc, out, *n)?;
            Ok(())
        }
        Amount(z) => {
            put_i128(alloc, out, *z)?;
            Ok(())
        }
    }
}
