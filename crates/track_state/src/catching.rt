//! How the index of touched series follows the history.
ghost use Rattle.std.specs.Prelude.{◌≡◌, ◌<◌, ◌+◌, OnOk, OnErr, length, Some};
ghost use Rattle.history_model.specs.Entries.{entries_of};
ghost use Rattle.track_state.specs.{Covering.{AreTouched, Covers, MakeSame, SomeAreTouched}, Touching.{named, sampled, touched_by}};

use crate::NoMemory;
use history_model::{Entry, growth_law, publication_law};
use line_text::Name;
use sample_model::Sample;
use series_index::SeriesName;
use std::alloc::Global;
use touch_index::{SeriesKey, TouchIndex};
use touch_model::{stale_law, touch_law};
use track_step::MachineState;

// The series of these samples were touched in a step.
fn touch_samples(
    alloc: Global,
    touched: &mut TouchIndex,
    samples: &[Sample],
    step: u64,
) -> Result<(), NoMemory>
    ensures all { OnOk result (AreTouched (sampled samples.now) step touched.old touched.new) }
    ensures some { SomeAreTouched (sampled samples.now) step touched.old touched.new }
{
    for sample in samples {
        let key = SeriesKey::of(alloc, &sample.test, &sample.metric)?;
        touched.touch(&key, step)?;
    }
    Ok(())
}

// Those of a metric among these series were touched in a step.
fn touch_named(
    alloc: Global,
    touched: &mut TouchIndex,
    names: &[SeriesName],
    metric: &Name,
    step: u64,
) -> Result<(), NoMemory>
    ensures all { OnOk result
        (AreTouched (named metric.now names.now) step touched.old touched.new) }
    ensures some { SomeAreTouched (named metric.now names.now) step touched.old touched.new }
{
    for name in names {
        if name.metric() == metric {
            let key = SeriesKey::of(alloc, name.test(), name.metric())?;
            touched.touch(&key, step)?;
        }
    }
    Ok(())
}

// The series that an entry touches were touched in a step.
fn touch_entry(
    track: &MachineState,
    touched: &mut TouchIndex,
    entry: &Entry,
    step: u64,
) -> Result<(), NoMemory>
    ensures all { OnOk result (AreTouched (touched_by (entries_of track.now.history) entry.now)
        step touched.old touched.new) }
    ensures some { SomeAreTouched (touched_by (entries_of track.now.history) entry.now)
        step touched.old touched.new }
{
    match entry {
        Entry::Accept { run } => {
            touch_samples(track.alloc(), touched, run.samples.as_slice(), step)
        }
        Entry::Retract { run } => {
            let Some(stored) = track.stored_runs().of_name(run) else {
                return Ok(());
            };
            touch_samples(track.alloc(), touched, stored.run.samples.as_slice(), step)
        }
        Entry::Tune { metric, .. } => {
            let names = track.known_series()?;
            touch_named(track.alloc(), touched, names.as_slice(), metric, step)
        }
        _ => Ok(()),
    }
}

// The entry behind so many first ones is looked at.
fn note(track: &MachineState, touched: &mut TouchIndex, place: u64) -> Result<(), NoMemory>
    requires covers { Covers (entries_of track.now.history) place touched.old }
    requires there { place < length (entries_of track.now.history) }
    ensures all { OnOk result (Covers (entries_of track.now.history) (place + 1) touched.new) }
    ensures part { OnErr result (Covers (entries_of track.now.history) place touched.new) }
    ensures claims { MakeSame (entries_of track.now.history) touched.old touched.new }
{
    growth_law();
    publication_law();
    touch_law();
    track.history_law();
    let Some(placed) = track.entry(place + 1) else {
        unreachable!();
    };
    touch_entry(track, touched, &placed.entry, place + 1)
}

// All entries that were not looked at yet are looked at. Linear in their samples, but for look-ups; a penalty that is
// set costs the number of known series.
pub(crate) fn catch_up(
    track: &MachineState,
    touched: &mut TouchIndex,
    seen: &mut u64,
) -> Result<(), NoMemory>
    requires { Covers (entries_of track.now.history) seen.old touched.old }
    ensures covers { Covers (entries_of track.now.history) seen.new touched.new }
    ensures claims { MakeSame (entries_of track.now.history) touched.old touched.new }
    ensures all { OnOk result (seen.new ≡ length (entries_of track.now.history)) }
{
    for place in *seen..track.len() {
        note(track, touched, place)?;
        *seen = place + 1;
    }
    Ok(())
}
