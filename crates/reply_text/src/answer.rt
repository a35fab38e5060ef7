//! The words of an answer, and the lines of a list.
ghost use Rattle.std.specs.{Prelude.{◌≡◌, ◌+◌, ◌<◌, ◌^◌, ◌∷◌, [], length, nat_lt, if◌then◌else◌, codes, decimal}, Fmt.signed_decimal};
ghost use Rattle.line_text.specs.Names.{spelling};
ghost use Rattle.request_model.specs.Lines.{spaced, line_of};
ghost use Rattle.reply_text.specs.Replies.{answer_words, change_words, length_words, lines_in, listed_words, run_words, version_words};
ghost use Rattle.request_model.specs.declared.replies.Answer.TheVariants as answer;
ghost use Rattle.reply_text.specs.Puts.{Puts};

use crate::NoMemory;
use crate::refusal::put_refusal;
use crate::words::{
    put_amount, put_move, put_number, put_outcome, put_spelled, put_step, put_word, put_worth,
};
use line_text::{Name, put_name};
use report_model::Pages;
use request_model::{Answer, NamedChange, RunLine};
use std::alloc::Global;

// Appends the words of an answer on the first line, each behind a space.
pub(crate) fn put_answer(alloc: Global, out: &mut Vec<u8>, answer: &Answer) -> Result<(), NoMemory>
    ensures { Puts result out.old.items out.new.items (spaced (answer_words answer.now)) }
{
    match answer {
        Answer::Machine { machine } => put_named(alloc, out, "machine", machine),
        Answer::Commit { number, name } => {
            put_word(out, "commit")?;
            put_number(alloc, out, *number)?;
            put_spelled(alloc, out, name)
        }
        Answer::Duplicate { step } => {
            put_word(out, "duplicate")?;
            put_step(alloc, out, *step)
        }
        Answer::Accepted {
            run,
            samples,
            ignored,
        } => {
            put_named(alloc, out, "accepted", run)?;
            put_counted(alloc, out, "samples", *samples)?;
            put_counted(alloc, out, "ignored", *ignored)
        }
        Answer::Retracted { run } => put_named(alloc, out, "retracted", run),
        Answer::Tuned {
            metric,
            penalty,
            length,
        } => {
            put_named(alloc, out, "tuned", metric)?;
            put_amount(alloc, out, *penalty)?;
            put_length(alloc, out, *length)
        }
        Answer::Segmented {
            version,
            base,
            points,
            cuts,
            redone,
            total,
        } => {
            put_version(alloc, out, "segmented", *version)?;
            put_three(
                alloc,
                out,
                ("base", *base),
                ("points", *points),
                ("cuts", *cuts),
            )?;
            put_effort(alloc, out, *redone, *total)
        }
        Answer::Changes { version, items, .. } => {
            put_listed(alloc, out, "changes", *version, items.len() as u64)
        }
        Answer::Verified { version, cert } => {
            let lines = certificate_lines(cert.get().length);
            put_listed(alloc, out, "verified", *version, lines)
        }
        Answer::Raised { regression } => {
            put_counted(alloc, out, "regression", *regression)?;
            put_word(out, "detected")
        }
        Answer::Moved {
            regression,
            from,
            to,
        } => {
            put_counted(alloc, out, "regression", *regression)?;
            put_move(out, *from, *to)
        }
        Answer::Job {
            job,
            range,
            questions,
            outcome,
        } => {
            let questions = ("questions", *questions);
            put_three(alloc, out, ("job", *job), ("range", *range), questions)?;
            put_outcome(alloc, out, outcome)
        }
        Answer::Runs { runs } => {
            put_word(out, "runs")?;
            put_counted(alloc, out, "lines", runs.len() as u64)
        }
        Answer::Report { pages } => {
            put_word(out, "report")?;
            put_line_count(alloc, out, pages.get())
        }
        Answer::Refused(refusal) => put_refusal(alloc, out, refusal),
    }
}

// Appends a least length, where it is above 1.
fn put_length(alloc: Global, out: &mut Vec<u8>, least: u8) -> Result<(), NoMemory>
    ensures { Puts result out.old.items out.new.items (spaced (length_words least)) }
{
    if least <= 1 {
        return Ok(());
    }
    put_number(alloc, out, u64::from(least))
}

// How many lines a certificate of this least length has.
fn certificate_lines(least: u8) -> u64
    ensures { result ≡ (if nat_lt 1 least then 8 else 7) }
{
    if least > 1 { 8 } else { 7 }
}

// Appends a word and a name.
fn put_named(alloc: Global, out: &mut Vec<u8>, kind: &str, name: &Name) -> Result<(), NoMemory>
    ensures { Puts result out.old.items out.new.items (spaced (kind.now ∷ spelling name.now ∷ [])) }
{
    put_word(out, kind)?;
    put_spelled(alloc, out, name)
}

// Appends a word and a number.
fn put_counted(alloc: Global, out: &mut Vec<u8>, what: &str, n: u64) -> Result<(), NoMemory>
    ensures { Puts result out.old.items out.new.items (spaced (what.now ∷ decimal n ∷ [])) }
{
    put_word(out, what)?;
    put_number(alloc, out, n)
}

// Appends a word, and the number of entries that the answer speaks of.
fn put_version(alloc: Global, out: &mut Vec<u8>, kind: &str, version: u64) -> Result<(), NoMemory>
    ensures { Puts result out.old.items out.new.items (spaced (version_words kind.now version)) }
{
    put_word(out, kind)?;
    put_counted(alloc, out, "version", version)
}

// Appends the same, and how many lines follow.
fn put_listed(
    alloc: Global,
    out: &mut Vec<u8>,
    kind: &str,
    version: u64,
    lines: u64,
) -> Result<(), NoMemory>
    ensures { Puts result out.old.items out.new.items
        (spaced (listed_words kind.now version lines)) }
{
    put_version(alloc, out, kind, version)?;
    put_counted(alloc, out, "lines", lines)
}

// Appends three numbers, each behind the word for it.
fn put_three(
    alloc: Global,
    out: &mut Vec<u8>,
    first: (&str, u64),
    second: (&str, u64),
    third: (&str, u64),
) -> Result<(), NoMemory>
    ensures { Puts result out.old.items out.new.items
        (spaced (first.entry.0.now ∷ decimal first.entry.1 ∷ second.entry.0.now
        ∷ decimal second.entry.1 ∷ third.entry.0.now ∷ decimal third.entry.1 ∷ [])) }
{
    put_counted(alloc, out, first.0, first.1)?;
    put_counted(alloc, out, second.0, second.1)?;
    put_counted(alloc, out, third.0, third.1)
}

// Appends how many positions were looked at anew, and the total.
fn put_effort(alloc: Global, out: &mut Vec<u8>, redone: u64, total: i128) -> Result<(), NoMemory>
    ensures { Puts result out.old.items out.new.items
        (spaced (codes "redone" ∷ decimal redone ∷ codes "total" ∷ signed_decimal total ∷ [])) }
{
    put_counted(alloc, out, "redone", redone)?;
    put_word(out, "total")?;
    put_amount(alloc, out, total)
}

// Appends how many lines a report has.
fn put_line_count(alloc: Global, out: &mut Vec<u8>, pages: &Pages) -> Result<(), NoMemory>
    ensures { Puts result out.old.items out.new.items
        (spaced (codes "lines" ∷ decimal (lines_in pages.now) ∷ [])) }
{
    if pages.json {
        return put_counted(alloc, out, "lines", 1);
    }
    put_word(out, "lines")?;
    put_amount(alloc, out, line_count(pages) as i128)
}

// How many series, regressions and bisections a report tells of.
fn line_count(pages: &Pages) -> u128
    ensures same { result
        ≡ length pages.now.series + length pages.now.regressions + length pages.now.jobs }
    ensures few { result < 2 ^ 66 }
{
    pages.series.len() as u128 + pages.regressions.len() as u128 + pages.jobs.len() as u128
}

// Appends the line of a change in this metric.
pub(crate) fn put_change(
    alloc: Global,
    out: &mut Vec<u8>,
    metric: &[u8],
    change: &NamedChange,
) -> Result<(), NoMemory>
    ensures { Puts result out.old.items out.new.items
        (line_of (change_words metric.now change.now)) }
{
    put_name(alloc, out, &change.before)?;
    put_spelled(alloc, out, &change.after)?;
    put_worth(alloc, out, metric, change.left)?;
    put_worth(alloc, out, metric, change.right)?;
    put_word(
        out,
        if change.worse {
            "regression"
        } else {
            "improvement"
        },
    )?;
    out.push(b'\n')?;
    Ok(())
}

// Appends the line of a run.
pub(crate) fn put_run(alloc: Global, out: &mut Vec<u8>, line: &RunLine) -> Result<(), NoMemory>
    ensures { Puts result out.old.items out.new.items (line_of (run_words line.now)) }
{
    put_name(alloc, out, &line.run)?;
    put_spelled(alloc, out, &line.commit)?;
    put_number(alloc, out, line.samples)?;
    put_word(out, if line.live { "live" } else { "retracted" })?;
    out.push(b'\n')?;
    Ok(())
}
