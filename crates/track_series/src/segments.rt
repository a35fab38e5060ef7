//! Segmentations of series: what is segmented, and what is told of it.
ghost use Rattle.std.specs.Prelude.{◌≡◌, IfOk, OnOk, OnErr, length};
ghost use Rattle.history_model.specs.Entries.{entries_of};
ghost use Rattle.track_model.specs.{Counts.CountsOf, Outcomes.Outcome, Publishing.{SegmentComesTo, segmented}, Tracks.{IsSameButTables, IsSegmentStep, base_of, with_taken}};
ghost use Rattle.track_series.specs.Snapshots.{IsSnapshot};

use crate::NoMemory;
use crate::computing::compute;
use crate::publishing::{Published, put};
use crate::snapshot::Snapshot;
use history_model::{Author, publication_law};
use line_text::{Duplicate, Name};
use machine_state::MachineState;
use pelt_core::Steps;
use point_list::FrozenPoints;
use request_model::{Answer, Refusal, Reply};
use segment_cost::Done;
use std::sync::ledger::Ledger;

/// What the history has of a series; none exactly where the series is unknown. The table of its last publication goes with
/// it, where that is home and has the present setting. Where there is no memory, nothing changes. One step for 128
/// positions, but for look-ups and for samples that came since it was last read.
pub fn take_snapshot(
    track: &mut MachineState,
    test: &Name,
    metric: &Name,
) -> Result<Option<Snapshot>, NoMemory>
    ensures snapshot { IfOk result (IsSnapshot track.old
        (record { test = test.now; metric = metric.now })) }
    ensures taken { OnOk result (track.new
        ≡ with_taken (record { test = test.now; metric = metric.now }) track.old) }
    ensures same { OnErr result (track.new ≡ track.old) }
{
    publication_law();
    track.history_law();
    let alloc = track.alloc();
    let Some(points) = track.points_of(test, metric)? else {
        return Ok(None);
    };
    let version = track.len();
    let setting = track.setting(metric);
    let test_name = test.copy(alloc)?;
    let metric_name = metric.copy(alloc)?;
    let none = FrozenPoints::none(alloc)?;
    match track.take_base(test, metric)? {
        Some(base) => Ok(Some(Snapshot {
            test: test_name,
            metric: metric_name,
            version,
            penalty: setting.penalty,
            length: setting.length,
            base: base.version,
            points,
            old: base.points,
            table: Some(base.table),
        })),
        None => Ok(Some(Snapshot {
            test: test_name,
            metric: metric_name,
            version,
            penalty: setting.penalty,
            length: setting.length,
            base: 0,
            points,
            old: none,
            table: None,
        })),
    }
}

/// What is told of it where it is published.
pub(crate) fn segmented(done: &Done) -> Answer
    ensures { result ≡ segmented done.now.version done.now.base done.now.redone done.now.cert }
{
    Answer::Segmented {
        version: done.version,
        base: done.base,
        points: done.cert.points,
        cuts: done.cert.cuts.len() as u64,
        redone: done.redone,
        total: done.cert.total,
    }
}

/// `segment M TEST METRIC`: publishes the best segmentation of all that the history has of the series, redone from the
/// table of its last publication. At most O(n² + v) time for n positions with v values where it begins anew, and O(n + v)
/// where few positions stand past those in common and changes come at bounded distances. One step for each position that
/// was redone.
pub fn segment<L: Ledger>(
    track: &mut MachineState,
    author: Author,
    test: &Name,
    metric: &Name,
    steps: &mut Steps<L>,
) -> Result<Reply, NoMemory>
    ensures step { IfOk result (λ reply. (o : Outcome)
        × SegmentComesTo (entries_of track.old.history)
        (base_of track.old (record { test = test.now; metric = metric.now }))
        (record { test = test.now; metric = metric.now }) o
        × IsSegmentStep track.old author (record { test = test.now; metric = metric.now })
        o track.new reply) }
    ensures steps { IfOk result (λ reply. CountsOf reply.answer steps.old steps.new) }
    ensures left { OnErr result (IsSameButTables track.old track.new) }
{
    let Some(snapshot) = take_snapshot(track, test, metric)? else {
        return Ok(track.told(Answer::Refused(Refusal::UnknownSeries)));
    };
    publication_law();
    track.history_law();
    let made = compute(track.alloc(), snapshot, steps)?;
    let answer = segmented(&made.done);
    match put(track, author, made)? {
        Published::Ok(step) => Ok(Reply { step, answer }),
        Published::Full(limit) => Ok(track.told(Answer::Refused(Refusal::Full(limit)))),
        Published::Stale(_) => unreachable!(),
    }
}
