//! Two snapshots of one series, of which the first has the table.
ghost use Rattle.publication_index.specs.Standing.{table_for};
ghost use Rattle.std.specs.Prelude.{◌≡◌, IfSome};
ghost use Rattle.history_model.specs.Entries.{entries_of};
ghost use Rattle.machine_state.specs.Made.{IsMadeFrom};
ghost use Rattle.room_tests.specs.Growth.{Grows, IsTakenBefore};

use crate::made::{MEASURED, machine_of};
use history_model::{Author, publication_law};
use line_text::Name;
use machine_state::MachineState;
use pelt_core::Table;
use segment_cost::Square;
use std::alloc::Global;
use track_series::{Published, Redone, Snapshot, compute_apart, publish, take_snapshot};

fn published(track: &mut MachineState, redone: Redone) -> Option<Published>
    requires made { IsMadeFrom (entries_of track.old.history) redone.done }
    requires tabled { redone.table ≡ table_for redone.done }
    ensures { Grows track.old track.new }
{
    let Redone { done, table } = redone;
    match publish(track, Author::Script(1), done, table) {
        Ok(told) => Some(told),
        Err(_) => None,
    }
}

// Publishes what is made of a snapshot that was taken before.
fn made_of(alloc: Global, track: &mut MachineState, snapshot: Snapshot) -> Option<Published>
    requires { IsTakenBefore track.old snapshot }
    ensures { Grows track.old track.new }
{
    publication_law();
    match compute_apart(alloc, snapshot) {
        Ok(redone) => published(track, redone),
        Err(_) => None,
    }
}

fn publish_taken(
    alloc: Global,
    track: &mut MachineState,
    found: Option<Snapshot>,
) -> Option<Published>
    requires { IfSome found (IsTakenBefore track.old) }
    ensures { Grows track.old track.new }
{
    match found {
        Some(snapshot) => made_of(alloc, track, snapshot),
        None => None,
    }
}

fn taken(track: &mut MachineState, test: &Name, metric: &Name) -> Option<Snapshot>
    ensures grows { Grows track.old track.new }
    ensures taken { IfSome result (IsTakenBefore track.new) }
{
    track.history_law();
    match take_snapshot(track, test, metric) {
        Ok(found) => found,
        Err(_) => None,
    }
}

// Whether a snapshot is of this version, from this base, with so many positions in its table.
fn is_of(found: &Option<Snapshot>, version: u64, base: u64, tabled: Option<usize>) -> bool {
    match found {
        Some(snapshot) => {
            snapshot.version == version
                && snapshot.base == base
                && snapshot.old.len() == tabled.unwrap_or(0)
                && length_of(&snapshot.table) == tabled
        }
        None => false,
    }
}

fn length_of(table: &Option<Table<Square>>) -> Option<usize> {
    match table {
        Some(table) => Some(table.len()),
        None => None,
    }
}

// The series is published anew, and then by both of two who took it, the second one first.
fn is_handed_over(alloc: Global, track: &mut MachineState, test: &Name, metric: &Name) -> bool {
    let new = taken(track, test, metric);
    let is_new = is_of(&new, 8, 0, None);
    let told_new = publish_taken(alloc, track, new);
    let first = taken(track, test, metric);
    let second = taken(track, test, metric);
    let with_table = is_of(&first, 9, 8, Some(3));
    let without = is_of(&second, 9, 0, None);
    let told = publish_taken(alloc, track, second);
    let told_last = publish_taken(alloc, track, first);
    is_new
        && told_new == Some(Published::Ok(9))
        && with_table
        && without
        && told == Some(Published::Ok(10))
        && told_last == Some(Published::Ok(11))
}

fn first_has_the_table(alloc: Global, test: &Name, metric: &Name) -> bool {
    match machine_of(alloc, MEASURED) {
        Some(mut track) => is_handed_over(alloc, &mut track, test, metric),
        None => false,
    }
}

fn has_name(alloc: Global, test: &Name, metric: &[u8]) -> bool {
    match Name::of_text(alloc, metric) {
        Ok(metric) => first_has_the_table(alloc, test, &metric),
        Err(_) => false,
    }
}

fn has_names(alloc: Global, test: &[u8], metric: &[u8]) -> bool {
    match Name::of_text(alloc, test) {
        Ok(test) => has_name(alloc, &test, metric),
        Err(_) => false,
    }
}

#[test]
fn the_first_has_the_table(rt: HostRuntime) {
    assert!(rt; has_names(rt.alloc(), b"X", b"B/op"));
}
