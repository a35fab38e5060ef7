//! A segmentation beside others: it is begun on one history, and finished on that or a longer one.
ghost use Rattle.std.specs.Prelude.{◌≡◌, IfOk, OnErr, OnOk, take};
ghost use Rattle.history_model.specs.Entries.{entries_of};
ghost use Rattle.publication_index.specs.{Kept.series_of, Standing.table_for};
ghost use Rattle.track_model.specs.{Outcomes.Outcome, Publishing.SegmentComesFrom, Tracks.{IsFinishStep, with_taken}};
ghost use Rattle.machine_state.specs.Made.{IsMadeFrom};
ghost use Rattle.track_series.specs.{Beside.{IsBegun, reply_told}, Publications.IsPublished};

use crate::NoMemory;
use crate::publishing::{Published, publish};
use crate::segments::{segmented, take_snapshot};
use crate::snapshot::Snapshot;
use history_model::{Author, publication_law};
use line_text::Name;
use machine_state::MachineState;
use pelt_core::Table;
use request_model::{Answer, Refusal, Reply};
use segment_cost::{Done, Square};

/// A segmentation that was begun.
pub enum Begun {
    /// What it is made of.
    Known(Snapshot),
    /// The series isn't known, and this is the reply.
    Unknown(Reply),
}

/// What became of a finished segmentation, and the reply to the request for it.
#[derive(Drop)]
pub struct Finished {
    /// What became of it.
    pub told: Published,
    /// The reply.
    pub reply: Reply,
}

/// Begins the segmentation of a series. The table of its last publication goes with it, where that is home and has the
/// present penalty. Linear in the values of the series, but for samples that came since it was last read.
pub fn begin(track: &mut MachineState, test: &Name, metric: &Name) -> Result<Begun, NoMemory>
    ensures begun { IfOk result (IsBegun track.old
        (record { test = test.now; metric = metric.now })) }
    ensures taken { OnOk result (track.new
        ≡ with_taken (record { test = test.now; metric = metric.now }) track.old) }
    ensures same { OnErr result (track.new ≡ track.old) }
{
    match take_snapshot(track, test, metric)? {
        Some(snapshot) => Ok(Begun::Known(snapshot)),
        None => Ok(Begun::Unknown(track.told(Answer::Refused(Refusal::UnknownSeries)))),
    }
}

// The reply to what was told of a publication.
fn reply_to(track: &MachineState, told: Published, answer: Answer) -> Reply
    ensures { result ≡ reply_told (entries_of track.now.history) told answer }
{
    match told {
        Published::Ok(step) => Reply { step, answer },
        Published::Stale(version) => track.told(Answer::Refused(Refusal::Stale(version))),
        Published::Full(limit) => track.told(Answer::Refused(Refusal::Full(limit))),
    }
}

/// Publishes a segmentation that was made of a version of the history, and replies as that version gives it. Linear in its
/// cuts, but for look-ups.
pub fn finish(
    track: &mut MachineState,
    author: Author,
    done: Done,
    table: Table<Square>,
) -> Result<Finished, NoMemory>
    requires made { IsMadeFrom (entries_of track.old.history) done }
    requires tabled { table ≡ table_for done }
    ensures published { IfOk result
        (λ end. IsPublished track.old author done end.told track.new) }
    ensures step { IfOk result (λ end. (o : Outcome)
        × SegmentComesFrom (take done.version (entries_of track.old.history)) done.base
        (entries_of track.old.history) (series_of done) o
        × IsFinishStep track.old author (series_of done) o track.new end.reply) }
    ensures same { OnErr result (track.new ≡ track.old) }
{
    publication_law();
    let answer = segmented(&done);
    let told = publish(track, author, done, table)?;
    let reply = reply_to(track, told, answer);
    Ok(Finished { told, reply })
}
