//! The segmentation of a series.
ghost use Rattle.std.specs.Prelude.{◌≡◌, ◌<◌, ◌≤◌, ◌^◌, ◌≤ℤ◌, [], ◌∷◌, ◌++◌, length, pos};
ghost use Rattle.segment_model.specs.{Limits.IsLength, Values.{AreWithinLimits, values_by_position}};

use absolute_cost::Absolute;
use change_list::{Change, ChangeItems, changes};
use checkpoint_redo::redo;
use cost_certificate::{check, put_cert};
use line_text::{Duplicate, Name, NoMemory, Numbers};
use part_core::part;
use pelt_core::{Steps, Table};
use penalty_path::{Stretch, Stretches, check_path, path};
use point_list::{FrozenPoints, PointFault, Points, common_prefix};
use prefix_sums::{PrefixSums, Sums};
use segment_cost::{Cert, Cost, Costs, Done, Places, Square};
use std::alloc::Global;
use std::sync::ledger::Ledger;

fn points() {
    let _: fn(Global) -> Points = Points::new;
    let _: fn(&mut Points, u64, u64, i64) -> Result<(), PointFault> = Points::insert;
    let _: fn(&mut Points, u64, u64) = Points::remove;
    let _: fn(&Points) -> usize = Points::len;
    let _: fn(&Points, usize) -> u64 = Points::commit;
    let _: fn(&Points, Global) -> Result<Points, NoMemory> = Points::copy;
    let _: fn(&FrozenPoints, &FrozenPoints) -> usize = common_prefix;
    let _: [PointFault; 3] = [
        PointFault::SamplesFull,
        PointFault::PositionsFull,
        PointFault::NoMemory,
    ];
}

fn values(points: &Points) -> &[i64]
    requires { 0 < length points.now }
{
    points.values(0)
}

fn sums() {
    let _: fn(Global) -> PrefixSums = PrefixSums::new;
    let _: fn(&mut PrefixSums, usize) -> Result<(), NoMemory> = PrefixSums::reserve;
    let _: fn(&mut PrefixSums, &[i64]) = PrefixSums::push;
    let _: fn(&mut PrefixSums, usize) = PrefixSums::cut_back;
    let _: fn(&PrefixSums, usize, usize) -> Sums = PrefixSums::part;
}

fn parts_of_sums(sums: Sums) -> (u64, i128, i128) {
    (sums.count, sums.sum, sums.squares)
}

// Names the calls of a cost.
macro_rules! calls_of {
    ($cost:ident) => {
        let _: fn(Global) -> $cost = $cost::fresh;
        let _: fn(&mut $cost, usize) -> Result<(), NoMemory> = $cost::reserve;
        let _: fn(&mut $cost, &[i64]) = $cost::push;
        let _: fn(&mut $cost, usize) = $cost::cut_back;
        let _: fn(&$cost) -> usize = $cost::len;
        let _: fn(&$cost, usize, usize) -> i128 = $cost::cost;
        let _: fn(&$cost, usize, usize) -> i64 = $cost::centre;
    };
}

fn costs() {
    calls_of!(Square);
    calls_of!(Absolute);
}

fn paths() {
    let _: fn(Global, &Points, i128, i128) -> Result<Stretches, NoMemory> = path;
    let _: fn(&Stretches, &Points, &Square, i128, i128) -> bool = check_path;
    let _: fn(&Stretch, Global) -> Result<Stretch, NoMemory> = Stretch::copy;
}

fn stretch(stretch: Stretch) -> (i128, i128, Cert, Cert) {
    (stretch.from, stretch.to, stretch.first, stretch.last)
}

fn certificates() {
    let _: fn(Global, &Points, i128, u8) -> Result<Cert, NoMemory> = part;
    let _: fn(&Cert, &Points, &Square) -> bool = check;
    let _: fn(Global, &mut Vec<u8>, &Cert) -> Result<(), NoMemory> = put_cert;
    let _: fn(&Cert, Global) -> Result<Cert, NoMemory> = Cert::copy;
    let _: fn(&Done, Global) -> Result<Done, NoMemory> = Done::copy;
}

fn parts(cert: Cert) -> (u64, i128, u8, Numbers, i128, Costs, Places, Places) {
    (
        cert.points,
        cert.penalty,
        cert.length,
        cert.cuts,
        cert.total,
        cert.least,
        cert.back,
        cert.pruned,
    )
}

fn made(done: Done) -> (Name, Name, u64, u64, u64, Cert, FrozenPoints) {
    (
        done.test,
        done.metric,
        done.version,
        done.base,
        done.redone,
        done.cert,
        done.points,
    )
}

fn table<C: Cost + Drop>(alloc: Global, penalty: i128, length: u8) -> Result<Table<C>, NoMemory>
    requires low { pos 0 ≤ℤ penalty }
    requires high { penalty ≤ℤ pos (10 ^ 36) }
    requires length { IsLength length }
{
    Table::<C>::start(alloc, penalty, length)
}

fn longer<C: Cost + Drop, L: Ledger>(
    table: &mut Table<C>,
    values: &[i64],
    steps: &mut Steps<L>,
) -> Result<(), NoMemory>
    requires { AreWithinLimits (table.old.positions ++ values.now ∷ []) }
{
    table.advance(values, steps)
}

fn shorter<C: Cost + Drop>(table: &mut Table<C>, k: usize)
    requires { k ≤ length table.old.positions }
{
    table.rewind(k);
}

fn told<C: Cost + Drop>(table: &Table<C>) -> (usize, i128, u8) {
    (table.len(), table.penalty(), table.length())
}

fn certificate<C: Cost + Drop>(table: &Table<C>, alloc: Global) -> Result<Cert, NoMemory> {
    table.certificate(alloc)
}

fn redone<L: Ledger>(
    table: &mut Table<Square>,
    old: &FrozenPoints,
    new: &FrozenPoints,
    steps: &mut Steps<L>,
) -> Result<(), NoMemory>
    requires { table.old.positions ≡ values_by_position old.now }
{
    redo(table, old, new, steps)
}

fn changed() {
    let _: fn(Global, &Done) -> Result<ChangeItems, NoMemory> = changes;
}

fn change(change: Change) -> (u64, u64, i64, i64, bool) {
    (
        change.before,
        change.after,
        change.left,
        change.right,
        change.worse,
    )
}
