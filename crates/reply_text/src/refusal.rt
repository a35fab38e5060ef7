//! The words of a refusal.
ghost use Rattle.std.specs.Prelude.{◌∷◌, ◌++◌, [], decimal};
ghost use Rattle.request_model.specs.Lines.{spaced};
ghost use Rattle.reply_text.specs.Replies.{place_words, refusal_words};
ghost use Rattle.request_model.specs.declared.replies.Refusal.TheVariants as refusal;
ghost use Rattle.reply_text.specs.Puts.{Puts};

use crate::NoMemory;
use crate::words::{put_move, put_number, put_outcome, put_spelled, put_step, put_text, put_word};
use line_text::Name;
use request_model::{RangePlace, Refusal};
use std::alloc::Global;

// Appends the words of a refusal, each behind a space.
pub(crate) fn put_refusal(
    alloc: Global,
    out: &mut Vec<u8>,
    refusal: &Refusal,
) -> Result<(), NoMemory>
    ensures { Puts result out.old.items out.new.items (spaced (refusal_words refusal.now)) }
{
    match refusal {
        Refusal::BadRequest => put_kind(out, "E01", "BadRequest"),
        Refusal::BadName => put_kind(out, "E02", "BadName"),
        Refusal::UnknownMachine => put_kind(out, "E03", "UnknownMachine"),
        Refusal::UnknownCommit => put_kind(out, "E04", "UnknownCommit"),
        Refusal::CommitTaken { number, name } => put_taken(alloc, out, *number, name),
        Refusal::NotText(offset) => put_numbered(alloc, out, "E06", "NotText", *offset),
        Refusal::NotJson(offset) => put_numbered(alloc, out, "E07", "NotJson", *offset),
        Refusal::NotReport { rule, member } => {
            put_numbered(alloc, out, "E08", "NotReport", u64::from(*rule))?;
            put_text(alloc, out, member.as_str())?;
            Ok(())
        }
        Refusal::OutOfRange(place) => put_out_of_range(alloc, out, place),
        Refusal::IdentityClash(step) => {
            put_kind(out, "E10", "IdentityClash")?;
            put_step(alloc, out, *step)
        }
        Refusal::UnknownRun => put_kind(out, "E11", "UnknownRun"),
        Refusal::AlreadyRetracted(step) => {
            put_kind(out, "E12", "AlreadyRetracted")?;
            put_step(alloc, out, *step)
        }
        Refusal::UnknownSeries => put_kind(out, "E13", "UnknownSeries"),
        Refusal::NothingPublished => put_kind(out, "E14", "NothingPublished"),
        Refusal::NoSuchChange(count) => put_numbered(alloc, out, "E15", "NoSuchChange", *count),
        Refusal::UnknownRegression => put_kind(out, "E16", "UnknownRegression"),
        Refusal::IllegalMove { from, to } => {
            put_kind(out, "E17", "IllegalMove")?;
            put_move(out, *from, *to)
        }
        Refusal::UnknownJob => put_kind(out, "E18", "UnknownJob"),
        Refusal::NotAsked(commit) => {
            put_kind(out, "E19", "NotAsked")?;
            put_spelled(alloc, out, commit)
        }
        Refusal::BadRange => put_kind(out, "E20", "BadRange"),
        Refusal::Full(limit) => {
            put_kind(out, "E21", "Full")?;
            put_word(out, limit.word())
        }
        Refusal::BadPenalty => put_kind(out, "E22", "BadPenalty"),
        Refusal::TooFewPoints(points) => put_numbered(alloc, out, "E23", "TooFewPoints", *points),
        Refusal::Stale(version) => put_numbered(alloc, out, "E24", "Stale", *version),
        Refusal::JobClosed(outcome) => {
            put_kind(out, "E25", "JobClosed")?;
            put_outcome(alloc, out, outcome)
        }
        Refusal::BodyTooLong => put_kind(out, "E26", "BodyTooLong"),
        Refusal::OnlyAlone => put_kind(out, "E27", "OnlyAlone"),
        Refusal::TooDeep(offset) => put_numbered(alloc, out, "E28", "TooDeep", *offset),
        Refusal::JobOpen(commit) => {
            put_kind(out, "E29", "JobOpen")?;
            put_spelled(alloc, out, commit)
        }
        Refusal::BadLength => put_kind(out, "E30", "BadLength"),
    }
}

// Appends the number and the word of a kind of refusal.
fn put_kind(out: &mut Vec<u8>, number: &str, word: &str) -> Result<(), NoMemory>
    ensures { Puts result out.old.items out.new.items ((32 ∷ number.now) ++ (32 ∷ word.now)) }
{
    put_word(out, number)?;
    put_word(out, word)
}

// Appends a kind of refusal, and a number.
fn put_numbered(
    alloc: Global,
    out: &mut Vec<u8>,
    number: &str,
    word: &str,
    told: u64,
) -> Result<(), NoMemory>
    ensures { Puts result out.old.items out.new.items
        (spaced (number.now ∷ word.now ∷ decimal told ∷ [])) }
{
    put_kind(out, number, word)?;
    put_number(alloc, out, told)
}

// Appends the refusal of a commit that is taken, with the pair that takes it.
fn put_taken(alloc: Global, out: &mut Vec<u8>, number: u64, name: &Name) -> Result<(), NoMemory>
    ensures { Puts result out.old.items out.new.items
        (spaced (refusal_words (refusal.CommitTaken number name.now))) }
{
    put_numbered(alloc, out, "E05", "CommitTaken", number)?;
    put_spelled(alloc, out, name)?;
    Ok(())
}

// Appends the refusal of a value that is out of range.
fn put_out_of_range(alloc: Global, out: &mut Vec<u8>, place: &RangePlace) -> Result<(), NoMemory>
    ensures { Puts result out.old.items out.new.items
        (spaced (refusal_words (refusal.OutOfRange place.now))) }
{
    put_kind(out, "E09", "OutOfRange")?;
    put_place(alloc, out, place)
}

// Appends where a value is out of range.
fn put_place(alloc: Global, out: &mut Vec<u8>, place: &RangePlace) -> Result<(), NoMemory>
    ensures { Puts result out.old.items out.new.items (spaced (place_words place.now)) }
{
    match place {
        RangePlace::Line(number) => put_number(alloc, out, *number),
        RangePlace::Sample { test, metric } => {
            put_text(alloc, out, test.as_str())?;
            put_text(alloc, out, metric.as_str())
        }
    }
}
