//! Entries, read from their texts.
ghost use Rattle.std.specs.Prelude.{◌≡◌, ℕ, ◌≤◌, List, ◌^◌, ◌<◌, All, length, map, drop, decimal, flat_map, IfOk, IsTrue, IsFalse};
ghost use Rattle.line_text.specs.Lines.{words_of};
ghost use Rattle.sample_model.specs.Samples.{Measurement, AreSamples};
ghost use Rattle.history_model.specs.declared.entries.Entry.{Entry as AnEntry};
ghost use Rattle.history_model.specs.declared.entries.Entry.TheVariants as entry;
ghost use Rattle.track_entry.specs.Texts.{sample_words, entry_words, HasShortMetric, IsEntry, SpellsEntry, IsOneEntry};
ghost use Rattle.track_entry.specs.declared.kind.Kind.TheVariants as kind;
ghost use Rattle.track_entry.specs.Readings.{Reads, ReadsKind};

use crate::events::{read_answer, read_move, read_raise};
use crate::fault::{EntryFault, EntryResult};
use crate::fits::entry_law;
use crate::kind::{Kind, read_kind};
use crate::put::put_whole;
use crate::words::{
    METRIC_LIMIT, byte_at, end_at, last_pair, name_at, number_at, pair_at, sample_at,
    series_pair_at, signed_at,
};
use history_model::{Entry, JobEvent, Publication, RegressionEvent, Run};
use line_text::{Boxed, Names, Numbers, names_law, next_word, words_law};
use metric_table::Limit;
use sample_model::Samples;
use std::alloc::Global;

/// The entry that the text spells; `NotEntry` exactly where it spells none.
///
/// Linear in the text, and takes memory in proportion to it. Who reads many shares their names by [`read_entry_with`].
pub fn read_entry(alloc: Global, text: &[u8]) -> Result<Entry, EntryFault>
    ensures spelt { IfOk result (λ entry. SpellsEntry text.now entry) }
    ensures none { result ≡ Err EntryFault.NotEntry → (e : AnEntry) → ¬ SpellsEntry text.now e }
{
    read_entry_with(alloc, &mut Names::new(alloc, 8), text)
}

/// As [`read_entry`], but names that are kept are shared.
pub fn read_entry_with(alloc: Global, names: &mut Names, text: &[u8]) -> Result<Entry, EntryFault>
    ensures spelt { IfOk result (λ entry. SpellsEntry text.now entry) }
    ensures none { result ≡ Err EntryFault.NotEntry → (e : AnEntry) → ¬ SpellsEntry text.now e }
{
    words_law();
    names_law();
    let entry = read_words(alloc, names, text)?;
    if !is_entry(&entry) {
        return Err(EntryFault::NotEntry);
    }
    let mut spelt = Vec::with_capacity(alloc, text.len())?;
    put_whole(alloc, &mut spelt, &entry)?;
    // What isn't canonical is spelt otherwise.
    if spelt.as_slice() != text {
        return Err(EntryFault::NotEntry);
    }
    Ok(entry)
}

// The entry of the text's words. They need not be canonical.
fn read_words(alloc: Global, names: &mut Names, text: &[u8]) -> EntryResult
    ensures { (e : AnEntry) → IsEntry e → words_of text.now ≡ entry_words e
        → Reads result (λ read. read ≡ e) }
{
    names_law();
    let Some((from, to)) = next_word(text, 0) else {
        return Err(EntryFault::NotEntry);
    };
    let Some(kind) = read_kind(&text[from..to]) else {
        return Err(EntryFault::NotEntry);
    };
    read_behind(alloc, names, kind, text, to)
}

// The entry of the kind, of the words from a place on.
fn read_behind(alloc: Global, names: &mut Names, kind: Kind, text: &[u8], at: usize) -> EntryResult
    requires { at ≤ length text.now }
    ensures { ReadsKind kind (words_of (drop at text.now)) result }
{
    match kind {
        Kind::Commit => read_commit(alloc, names, text, at),
        Kind::Accept => read_accept(alloc, names, text, at),
        Kind::Retract => read_retract(alloc, names, text, at),
        Kind::Tune => read_tune(alloc, names, text, at),
        Kind::Publish => read_publish(alloc, names, text, at),
        Kind::Raise => read_raise(alloc, names, text, at),
        Kind::Move => read_move(text, at),
        Kind::Begin => {
            let (lo, hi) = last_pair(text, at)?;
            let event = JobEvent::Begin { lo, hi };
            Ok(Entry::Job { event })
        }
        Kind::Answer => read_answer(text, at),
        Kind::GiveUp => {
            let (job, place) = last_pair(text, at)?;
            let event = JobEvent::GiveUp { job, place };
            Ok(Entry::Job { event })
        }
    }
}

fn read_commit(alloc: Global, names: &mut Names, text: &[u8], at: usize) -> EntryResult
    requires { at ≤ length text.now }
    ensures { ReadsKind kind.Commit (words_of (drop at text.now)) result }
{
    let (number, behind_number) = number_at(text, at)?;
    let (name, end) = name_at(alloc, names, text, behind_number)?;
    end_at(text, end)?;
    Ok(Entry::Commit { number, name })
}

fn read_accept(alloc: Global, names: &mut Names, text: &[u8], at: usize) -> EntryResult
    requires { at ≤ length text.now }
    ensures { ReadsKind kind.Accept (words_of (drop at text.now)) result }
{
    let (run, behind_run) = name_at(alloc, names, text, at)?;
    let (commit, _, behind_count) = pair_at(text, behind_run)?;
    let samples = read_samples(alloc, names, text, behind_count)?;
    let run = Run {
        run,
        commit,
        samples,
    };
    Ok(Entry::Accept { run })
}

fn read_retract(alloc: Global, names: &mut Names, text: &[u8], at: usize) -> EntryResult
    requires { at ≤ length text.now }
    ensures { ReadsKind kind.Retract (words_of (drop at text.now)) result }
{
    let (run, end) = name_at(alloc, names, text, at)?;
    end_at(text, end)?;
    Ok(Entry::Retract { run })
}

fn read_tune(alloc: Global, names: &mut Names, text: &[u8], at: usize) -> EntryResult
    requires { at ≤ length text.now }
    ensures { ReadsKind kind.Tune (words_of (drop at text.now)) result }
{
    let (metric, behind_metric) = name_at(alloc, names, text, at)?;
    let (penalty, behind_penalty) = signed_at(text, behind_metric)?;
    let (least, end) = byte_at(text, behind_penalty)?;
    end_at(text, end)?;
    let penalty = Boxed::new(alloc, penalty)?;
    Ok(Entry::Tune {
        metric,
        penalty,
        length: least,
    })
}

fn read_publish(alloc: Global, names: &mut Names, text: &[u8], at: usize) -> EntryResult
    requires { at ≤ length text.now }
    ensures { ReadsKind kind.Publish (words_of (drop at text.now)) result }
{
    let (test, metric, version, base, behind_base) = series_pair_at(alloc, names, text, at)?;
    let (total, behind_total) = signed_at(text, behind_base)?;
    let (_, behind_count) = number_at(text, behind_total)?;
    let cuts = read_cuts(alloc, text, behind_count)?;
    let publication = Publication {
        test,
        metric,
        version,
        base,
        total,
        cuts,
    };
    let publication = Boxed::new(alloc, publication)?;
    Ok(Entry::Publish { publication })
}

// The cuts of all words from a place on.
fn read_cuts(alloc: Global, text: &[u8], at: usize) -> Result<Numbers, EntryFault>
    requires { at ≤ length text.now }
    ensures { (cuts : List ℕ) → All (λ c. c < 2 ^ 64) cuts
        → words_of (drop at text.now) ≡ map decimal cuts
        → Reads result (λ read. read ≡ cuts) }
{
    let mut cuts = Numbers::new(alloc);
    let mut place = at;
    while next_word(text, place).is_some() {
        let (cut, end) = number_at(text, place)?;
        cuts.push(cut)?;
        place = end;
    }
    Ok(cuts)
}

// The samples of all words from a place on.
fn read_samples(
    alloc: Global,
    names: &mut Names,
    text: &[u8],
    at: usize,
) -> Result<Samples, EntryFault>
    requires { at ≤ length text.now }
    ensures { (samples : List Measurement) → AreSamples samples
        → words_of (drop at text.now) ≡ flat_map sample_words samples
        → Reads result (λ read. read ≡ samples) }
{
    let mut samples = Samples::new(alloc);
    let mut place = at;
    while next_word(text, place).is_some() {
        if samples.len() as u64 >= Limit::RunSamples.most() {
            return Err(EntryFault::NotEntry);
        }
        let (sample, end) = sample_at(alloc, names, text, place)?;
        samples.push(sample)?;
        place = end;
    }
    Ok(samples.share(alloc)?)
}

// Whether an entry has a text: the types keep all but the length of a metric.
fn is_entry(entry: &Entry) -> bool
    ensures yes { IsTrue result → IsEntry entry.now }
    ensures no { IsFalse result → ¬ IsEntry entry.now }
{
    entry_law(entry);
    has_short_metric(entry)
}

// Whether the metric that an entry itself names is short enough.
fn has_short_metric(entry: &Entry) -> bool
    ensures yes { IsTrue result → HasShortMetric entry.now }
    ensures no { IsFalse result → ¬ IsEntry entry.now }
{
    match entry {
        Entry::Tune { metric, .. } => metric.as_str().len() <= METRIC_LIMIT,
        Entry::Publish { publication } => publication.get().metric.as_str().len() <= METRIC_LIMIT,
        Entry::Regression {
            event: RegressionEvent::Raise { raised },
        } => raised.metric.as_str().len() <= METRIC_LIMIT,
        _ => true,
    }
}

/// No text spells two entries. Does nothing: its contract is what it is for.
pub fn entries_law()
    ensures { IsOneEntry }
{
    words_law();
    names_law();
}
