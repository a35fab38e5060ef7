//! A table that is advanced, with ample memory, and one of a drawn series beside the plain table.
ghost use Rattle.std.specs.Prelude.{◌≡◌, ◌<◌, [], IfSome};
ghost use Rattle.segment_model.specs.Limits.{IsLength};

use crate::tests::given::{has_text, points_of};
use cost_certificate::check;
use part_core::part;
use pelt_core::{Steps, Table, segmentation};
use segment_cost::{Cert, Square};
use std::alloc::Global;
use std::marker::Brand;
use std::sync::ledger::{Blank, Ledger};

// A table of no positions; none where there is no memory.
fn fresh(alloc: Global) -> Option<Table<Square>>
    ensures { IfSome result (λ table. table.positions ≡ []) }
{
    Table::start(alloc, 1, 1).ok()
}

// Whether such a table could go a position on.
fn goes_on<L: Ledger>(table: &mut Table<Square>, steps: &mut Steps<L>) -> bool
    requires { table.old.positions ≡ [] }
{
    table.advance(&[7], steps).is_ok()
}

// The certificate of a table that went one position on; none where there is no memory.
fn led<L: Ledger>(alloc: Global, blank: Blank) -> Option<Cert>
    requires name { blank.name ≡ L.name }
    requires parts { blank.parts ≡ L.parts }
    requires some { 0 < L.parts }
{
    let mut steps = Steps::<L>::start(blank);
    let mut table = fresh(alloc)?;
    if !goes_on(&mut table, &mut steps) {
        return None;
    }
    table.certificate(alloc).ok()
}

// Whether it is the certificate of one position.
fn is_of_one(alloc: Global) -> bool {
    has_text(
        alloc,
        led::<Brand>(alloc, Blank::new(1)),
        "points 1\npenalty 1\ncuts\ntotal 0\nleast -1 0\nback 0 0\npruned 0 0\n",
    )
}

#[test]
fn tables_advance(rt: HostRuntime) {
    assert!(rt; is_of_one(rt.alloc()));
}

// ---- the first 300 positions of a drawn series, as the script of 7 leaves it

const PENALTY: i128 = 300_000_000_000;

// The state behind a draw.
fn next(state: u64) -> u64 {
    let product = u128::from(state) * 6_364_136_223_846_793_005 + 1_442_695_040_888_963_407;
    (product % 18_446_744_073_709_551_616) as u64
}

// The value at a place where the state is drawn: a level that rises each 125 places, and a number below 21, in ten-thousandths.
fn value_at(place: u64, state: u64) -> i64
    requires { place < 500 }
{
    let value = 1_000 + 100 * (place / 125) + state / 8_589_934_592 % 21;
    (value * 10_000) as i64
}

// The runs at these positions that aren't taken back, each as its commit and its value; none where there is no memory.
fn drawn_runs(alloc: Global) -> Option<Vec<(u64, i64)>> {
    let mut state = 7;
    let mut runs = Vec::new(alloc);
    for j in 0..2_000 {
        state = next(state);
        let place = 271 * j % 500;
        if place < 300 && j % 200 != 0 {
            runs.push((place, value_at(place, state))).ok()?;
        }
    }
    Some(runs)
}

// Whether both tables find one certificate of some points.
fn are_one(plain: &Cert, pruned: &Cert) -> bool {
    plain.cuts.as_slice() == pruned.cuts.as_slice()
        && plain.total == pruned.total
        && plain.least.as_slice() == pruned.least.as_slice()
        && plain.back.as_slice() == pruned.back.as_slice()
        && plain.pruned.as_slice() == pruned.pruned.as_slice()
}

// Whether both tables find one certificate of these runs, and it passes.
fn is_found_by_both(alloc: Global, length: u8) -> Option<bool>
    requires { IsLength length }
{
    let runs = drawn_runs(alloc)?;
    let points = points_of(alloc, &runs)?;
    let plain = part(alloc, &points, PENALTY, length).ok()?;
    let pruned = segmentation(alloc, &points, PENALTY, length).ok()?;
    let square = Square::of_points(alloc, &points).ok()?;
    Some(plain.points == 300 && are_one(&plain, &pruned) && check(&pruned, &points, &square))
}

#[test]
fn the_plain_and_the_pruned_table_agree(rt: HostRuntime) {
    assert_eq!(rt; is_found_by_both(rt.alloc(), 1), Some(true));
    assert_eq!(rt; is_found_by_both(rt.alloc(), 2), Some(true));
    assert_eq!(rt; is_found_by_both(rt.alloc(), 5), Some(true));
    assert_eq!(rt; is_found_by_both(rt.alloc(), 20), Some(true));
    assert_eq!(rt; is_found_by_both(rt.alloc(), 64), Some(true));
}
