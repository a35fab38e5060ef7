//! What is left to recompute once nobody else works.
ghost use Rattle.std.specs.Prelude.{OnOk};
ghost use Rattle.history_model.specs.declared.entries.Author.TheVariants as author;
ghost use Rattle.worker_model.specs.Quiet.{SeriesAreQuiet};
ghost use Rattle.recompute_workers.specs.{Quiet.IsQuiet, Recomputing.{AddsOne, AddsPublications}};
ghost use Rattle.track_room.specs.Work.{IsUntaken, history_of};

use crate::NoMemory;
use history_model::{Author, growth_law, publication_law, setting_law};
use series_index::SeriesName;
use std::alloc::Global;
use touch_model::{stale_law, touch_law};
use track_room::{TrackState, compute_apart};

// Publishes a series, where it is stale.
fn recompute_series(alloc: Global, work: &mut TrackState, name: &SeriesName) -> Result<(), NoMemory>
    ensures added { AddsOne (author.Recompute 1) work.old.track work.new.track }
    ensures free { IsUntaken work.old → IsUntaken work.new }
    ensures quiet { OnOk result (IsQuiet (history_of work.new) name.now) }
{
    growth_law();
    setting_law();
    publication_law();
    stale_law();
    touch_law();
    let Some(snapshot) = work.stale_snapshot(name.test(), name.metric())? else {
        return Ok(());
    };
    work.track().history_law();
    let made = compute_apart(alloc, snapshot)?;
    let _ = work.publish(Author::Recompute(1), made.done, made.table)?;
    Ok(())
}

/// Ends all claims and publishes each stale series, in order of test and metric, as the first worker that recomputes.
/// Where there is no memory, what was published stands, and all claims have ended. Always returns.
pub fn recompute_last(alloc: Global, work: &mut TrackState) -> Result<(), NoMemory>
    ensures added { AddsPublications (author.Recompute 1) work.old.track work.new.track }
    ensures free { IsUntaken work.new }
    ensures quiet { OnOk result (SeriesAreQuiet (history_of work.new)) }
{
    growth_law();
    setting_law();
    publication_law();
    stale_law();
    touch_law();
    work.end_claims();
    let names = work.track().known_series()?;
    for name in names.as_slice() {
        recompute_series(alloc, work, name)?;
        work.track().history_law();
    }
    Ok(())
}
