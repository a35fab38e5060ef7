//! The best segmentation of a snapshot, from the table that it begins with.
ghost use Rattle.std.specs.Prelude.{◌≡◌, ◌+◌, ◌<◌, ◌≤ℤ◌, ◌^◌, IfOk, pos};
ghost use Rattle.segment_model.specs.{Limits.IsLength, Values.values_by_position};
ghost use Rattle.pelt_core.specs.Seen.{table_of};
ghost use Rattle.track_series.specs.{Begun.Begins, Snapshots.IsRedone};

use crate::NoMemory;
use crate::redone::Redone;
use crate::snapshot::Snapshot;
use checkpoint_redo::redo_from;
use pelt_core::{Steps, Table};
use point_list::{FrozenPoints, common_prefix};
use segment_cost::{Done, Square, certificate_law};
use std::alloc::Global;
use std::marker::Brand;
use std::sync::ledger::{Blank, Ledger};

/// The best segmentation of a snapshot with its table: the table that the snapshot has is redone, or a new one is made.
/// One step for each position past those in common with the old ones; beside, the positions in common are compared by
/// blocks, and the table is copied.
pub fn compute<L: Ledger>(
    alloc: Global,
    snapshot: Snapshot,
    steps: &mut Steps<L>,
) -> Result<Redone, NoMemory>
    ensures made { IfOk result (IsRedone snapshot) }
    ensures steps { IfOk result (λ made. steps.new ≡ steps.old + made.done.redone) }
{
    certificate_law();
    let Snapshot {
        test,
        metric,
        version,
        penalty,
        length,
        base,
        points,
        old,
        table,
        ..
    } = snapshot;
    let mut table = begun(alloc, &old, penalty, length, base, table)?;
    let front = common_prefix(&old, &points);
    redo_from(&mut table, front, &points, steps)?;
    let redone = (points.len() - front) as u64;
    let cert = table.certificate(alloc)?;
    let done = Done {
        test,
        metric,
        version,
        base,
        redone,
        cert,
        points,
    };
    Ok(Redone { done, table })
}

/// As [`compute`], with its steps in a ledger of their own, for callers that count none.
pub fn compute_apart(alloc: Global, snapshot: Snapshot) -> Result<Redone, NoMemory>
    ensures { IfOk result (IsRedone snapshot) }
{
    counted::<Brand>(alloc, snapshot, Blank::new(1))
}

// Counts the steps in a new ledger.
fn counted<L: Ledger>(alloc: Global, snapshot: Snapshot, blank: Blank) -> Result<Redone, NoMemory>
    requires name { blank.name ≡ L.name }
    requires parts { blank.parts ≡ L.parts }
    requires some { 0 < L.parts }
    ensures { IfOk result (IsRedone snapshot) }
{
    let mut steps = Steps::<L>::start(blank);
    compute(alloc, snapshot, &mut steps)
}

// The table of the old positions: the one that there is, or a new one of none.
fn begun(
    alloc: Global,
    old: &FrozenPoints,
    penalty: i128,
    least: u8,
    base: u64,
    table: Option<Table<Square>>,
) -> Result<Table<Square>, NoMemory>
    requires low { pos 0 ≤ℤ penalty }
    requires high { penalty ≤ℤ pos (10 ^ 36) }
    requires least { IsLength least }
    requires begins { ∥ Begins base old.now penalty least table ∥₁ }
    ensures { IfOk result (λ made. made ≡ table_of (values_by_position old.now) penalty least) }
{
    match table {
        Some(table) => Ok(table),
        None => Table::start(alloc, penalty, least),
    }
}
