//! The text of an entry, written.
ghost use Rattle.std.specs.{Prelude.{◌≡◌, ◌++◌, OnOk, OnErr, flat_map, map, decimal, length}, Fmt.signed_decimal};
ghost use Rattle.history_model.specs.declared.entries.Entry.TheVariants as entry;
ghost use Rattle.line_text.specs.Names.{spelling};
ghost use Rattle.track_entry.specs.Texts.{next, sample_words, entry_text};

use crate::NoMemory;
use history_model::{Entry, JobEvent, Publication, RegressionEvent, Run};
use line_text::{Name, put_i128, put_name, put_u64};
use sample_model::Sample;
use std::alloc::Global;

/// Appends the text of an entry; changes nothing where there is no memory. Linear in the text.
pub fn put_entry(alloc: Global, out: &mut Vec<u8>, entry: &Entry) -> Result<(), NoMemory>
    ensures ok { OnOk result (out.new.items ≡ out.old.items ++ entry_text entry.now) }
    ensures err { OnErr result (out.new.items ≡ out.old.items) }
{
    let mut text = Vec::new(alloc);
    put_whole(alloc, &mut text, entry)?;
    out.extend_from_slice(&text)?;
    Ok(())
}

// Appends the text of an entry; where there is no memory, some of it.
pub fn put_whole(alloc: Global, out: &mut Vec<u8>, entry: &Entry) -> Result<(), NoMemory>
    ensures { OnOk result (out.new.items ≡ out.old.items ++ entry_text entry.now) }
{
    match entry {
        Entry::Commit { number, name } => {
            out.extend_from_slice(b"commit")?;
            put_number(alloc, out, *number)?;
            put_word(alloc, out, name)
        }
        Entry::Accept { run } => {
            out.extend_from_slice(b"accept")?;
            put_run(alloc, out, run)
        }
        Entry::Retract { run } => {
            out.extend_from_slice(b"retract")?;
            put_word(alloc, out, run)
        }
        Entry::Tune {
            metric,
            penalty,
            length,
        } => {
            out.extend_from_slice(b"tune")?;
            put_word(alloc, out, metric)?;
            put_signed(alloc, out, *penalty.get())?;
            put_number(alloc, out, u64::from(*length))
        }
        Entry::Publish { publication } => {
            out.extend_from_slice(b"publish")?;
            put_publication(alloc, out, publication.get())
        }
        Entry::Regression { event } => put_regression(alloc, out, event),
        Entry::Job { event } => put_job(alloc, out, event),
    }
}

fn put_regression(alloc: Global, out: &mut Vec<u8>, event: &RegressionEvent) -> Result<(), NoMemory>
    ensures { OnOk result
        (out.new.items ≡ out.old.items ++ entry_text (entry.Regression event.now)) }
{
    match event {
        RegressionEvent::Raise { raised } => {
            out.extend_from_slice(b"raise")?;
            put_word(alloc, out, &raised.test)?;
            put_word(alloc, out, &raised.metric)?;
            put_number(alloc, out, raised.before)?;
            put_number(alloc, out, raised.after)
        }
        RegressionEvent::Move { regression, state } => {
            out.extend_from_slice(b"move")?;
            put_number(alloc, out, *regression)?;
            out.push(b' ')?;
            out.extend_from_slice(state.word().as_bytes())?;
            Ok(())
        }
    }
}

fn put_job(alloc: Global, out: &mut Vec<u8>, event: &JobEvent) -> Result<(), NoMemory>
    ensures { OnOk result (out.new.items ≡ out.old.items ++ entry_text (entry.Job event.now)) }
{
    match event {
        JobEvent::Begin { lo, hi } => {
            out.extend_from_slice(b"begin")?;
            put_number(alloc, out, *lo)?;
            put_number(alloc, out, *hi)
        }
        JobEvent::Answer { job, place, status } => {
            out.extend_from_slice(b"answer")?;
            put_number(alloc, out, *job)?;
            put_number(alloc, out, *place)?;
            put_number(alloc, out, u64::from(*status))
        }
        JobEvent::GiveUp { job, place } => {
            out.extend_from_slice(b"giveup")?;
            put_number(alloc, out, *job)?;
            put_number(alloc, out, *place)
        }
    }
}

fn put_run(alloc: Global, out: &mut Vec<u8>, run: &Run) -> Result<(), NoMemory>
    ensures { OnOk result (out.new.items ≡ out.old.items
        ++ (next (spelling run.now.run) ++ next (decimal run.now.commit)
        ++ next (decimal (length run.now.samples))
        ++ flat_map next (flat_map sample_words run.now.samples))) }
{
    put_word(alloc, out, &run.run)?;
    put_number(alloc, out, run.commit)?;
    put_number(alloc, out, run.samples.len() as u64)?;
    put_samples(alloc, out, run.samples.as_slice())
}

fn put_samples(alloc: Global, out: &mut Vec<u8>, samples: &[Sample]) -> Result<(), NoMemory>
    ensures { OnOk result
        (out.new.items ≡ out.old.items ++ flat_map next (flat_map sample_words samples.now)) }
{
    for sample in samples {
        put_sample(alloc, out, sample)?;
    }
    Ok(())
}

fn put_publication(alloc: Global, out: &mut Vec<u8>, p: &Publication) -> Result<(), NoMemory>
    ensures { OnOk result (out.new.items ≡ out.old.items ++ (next (spelling p.now.test)
        ++ next (spelling p.now.metric) ++ next (decimal p.now.version)
        ++ next (decimal p.now.base) ++ next (signed_decimal p.now.total)
        ++ next (decimal (length p.now.cuts)) ++ flat_map next (map decimal p.now.cuts))) }
{
    put_word(alloc, out, &p.test)?;
    put_word(alloc, out, &p.metric)?;
    put_number(alloc, out, p.version)?;
    put_number(alloc, out, p.base)?;
    put_signed(alloc, out, p.total)?;
    put_number(alloc, out, p.cuts.len() as u64)?;
    put_cuts(alloc, out, p.cuts.as_slice())
}

fn put_cuts(alloc: Global, out: &mut Vec<u8>, cuts: &[u64]) -> Result<(), NoMemory>
    ensures { OnOk result (out.new.items ≡ out.old.items ++ flat_map next (map decimal cuts.now)) }
{
    for cut in cuts {
        put_number(alloc, out, *cut)?;
    }
    Ok(())
}

fn put_sample(alloc: Global, out: &mut Vec<u8>, sample: &Sample) -> Result<(), NoMemory>
    ensures { OnOk result
        (out.new.items ≡ out.old.items ++ flat_map next (sample_words sample.now)) }
{
    put_word(alloc, out, &sample.test)?;
    put_word(alloc, out, &sample.metric)?;
    put_signed(alloc, out, i128::from(sample.value))
}

fn put_word(alloc: Global, out: &mut Vec<u8>, name: &Name) -> Result<(), NoMemory>
    ensures { OnOk result (out.new.items ≡ out.old.items ++ next (spelling name.now)) }
{
    out.push(b' ')?;
    put_name(alloc, out, name)?;
    Ok(())
}

fn put_number(alloc: Global, out: &mut Vec<u8>, n: u64) -> Result<(), NoMemory>
    ensures { OnOk result (out.new.items ≡ out.old.items ++ next (decimal n)) }
{
    out.push(b' ')?;
    put_u64(alloc, out, n)?;
    Ok(())
}

fn put_signed(alloc: Global, out: &mut Vec<u8>, n: i128) -> Result<(), NoMemory>
    ensures { OnOk result (out.new.items ≡ out.old.items ++ next (signed_decimal n)) }
{
    out.push(b' ')?;
    put_i128(alloc, out, n)?;
    Ok(())
}
