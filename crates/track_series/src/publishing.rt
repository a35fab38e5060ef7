//! Publications of finished segmentations.
ghost use Rattle.std.specs.Prelude.{◌≡◌, IfOk, OnErr};
ghost use Rattle.history_model.specs.{Entries.entries_of, Publications.{IsUpTo, last_publication}};
ghost use Rattle.publication_index.specs.{Kept.series_of, Standing.table_for};
ghost use Rattle.machine_state.specs.Made.{IsMadeFrom, publication_from};
ghost use Rattle.track_series.specs.Publications.{IsAdded, IsPublished, later, passed};

use crate::NoMemory;
use crate::redone::Redone;
use history_model::{Author, Publication, publication_law, within_law};
use line_text::Duplicate;
use machine_state::MachineState;
use metric_table::Limit;
use pelt_core::Table;
use segment_cost::{Done, Square};
use std::alloc::Global;
use track_model::publish_law;

/// What became of a finished segmentation.
#[derive(Clone, Copy, Debug, PartialEq, Eq)]
pub enum Published {
    /// It was published in this step.
    Ok(u64),
    /// A later version of the series, this one, was published before.
    Stale(u64),
    /// The history would pass this limit with it.
    Full(Limit),
}

// What is published of it.
fn publication_of(alloc: Global, done: &Done) -> Result<Publication, NoMemory>
    ensures { IfOk result (λ made. made ≡ publication_from done.now) }
{
    Ok(Publication {
        test: done.test.copy(alloc)?,
        metric: done.metric.copy(alloc)?,
        version: done.version,
        base: done.base,
        total: done.cert.total,
        cuts: done.cert.cuts.copy(alloc)?,
    })
}

// Publishes it where it passes no limit; no later version of its series was published.
pub(crate) fn put(
    track: &mut MachineState,
    author: Author,
    redone: Redone,
) -> Result<Published, NoMemory>
    requires made { IsMadeFrom (entries_of track.old.history) redone.done }
    requires tabled { redone.table ≡ table_for redone.done }
    requires latest { IsUpTo redone.done.version
        (last_publication (series_of redone.done) (entries_of track.old.history)) }
    ensures put { IfOk result (λ told. IsAdded
        (passed (entries_of track.old.history) redone.done)
        track.old author redone.done told track.new) }
    ensures same { OnErr result (track.new ≡ track.old) }
{
    publish_law();
    within_law();
    publication_law();
    track.history_law();
    if track.len() >= Limit::Steps.most() {
        return Ok(Published::Full(Limit::Steps));
    }
    let Redone { done, table } = redone;
    if done.cert.cuts.len() as u64 > Limit::Cuts.most() - track.cut_count() {
        return Ok(Published::Full(Limit::Cuts));
    }
    let publication = publication_of(track.alloc(), &done)?;
    let step = track.add_publication(author, publication, done, table)?;
    Ok(Published::Ok(step))
}

// The version of the series' last publication, where it is above that of the segmentation.
fn later(track: &MachineState, done: &Done) -> Option<u64>
    ensures { result ≡ later done.now.version
        (last_publication (series_of done.now) (entries_of track.now.history)) }
{
    let Some(kept) = track.published(&done.test, &done.metric) else {
        return None;
    };
    if kept.version > done.version {
        return Some(kept.version);
    }
    None
}

/// Publishes a segmentation that was made from the history, at its version or before, and keeps its table, which is home
/// then. Linear in its cuts, but for look-ups.
pub fn publish(
    track: &mut MachineState,
    author: Author,
    done: Done,
    table: Table<Square>,
) -> Result<Published, NoMemory>
    requires made { IsMadeFrom (entries_of track.old.history) done }
    requires tabled { table ≡ table_for done }
    ensures published { IfOk result (λ told. IsPublished track.old author done told track.new) }
    ensures same { OnErr result (track.new ≡ track.old) }
{
    if let Some(version) = later(track, &done) {
        return Ok(Published::Stale(version));
    }
    put(track, author, Redone { done, table })
}
