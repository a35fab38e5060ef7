//! Whether a certificate stands for points.
ghost use Rattle.std.specs.Prelude.{◌≡◌, ◌<◌, ◌+◌, ◌^◌, ◌≤◌, length, pos, neg_ℤ, ◌≤ℤ◌, ◌↔◌, IsTrue};
ghost use Rattle.segment_model.specs.{Values.{values_by_position, cost_between}, Computed.least_sum_of, Limits.IsLength, Tables.{int_at, IsTable}};
ghost use Rattle.segment_cost.specs.Certificate.{StandsFor};
ghost use Rattle.cost_certificate.specs.Checks.{AreRight};

use crate::blocks::places_hold;
use crate::entries::{are_totals, rows_hold};
use crate::tables::Tables;
use crate::walk::cuts_hold;
use segment_cost::{Cert, Cost, Points, Square, certificate_law};
use segment_model::{
    best_list_law, least_sum_law, squares_law, table_law, value_costs_law, verifying_law, walk_law,
};

const GREATEST_PENALTY: i128 = 1_000_000_000_000_000_000_000_000_000_000_000_000;

/// Whether the certificate stands for the points, its penalty, which is from 0 to 10^36, and its least length of segments, which is
/// from 1 to 64.
///
/// Goes over the blocks of 32 places, each with those before it, and looks at the single places of one only where its
/// summary doesn't tell: linear in the positions where changes come at bounded distances, but for one step for each pair
/// of blocks; quadratic at worst. Takes no memory.
pub fn check(cert: &Cert, points: &Points, sums: &Square) -> bool
    requires { sums.now.positions ≡ values_by_position points.now }
    ensures { IsTrue result
        ↔ ((pos 0 ≤ℤ cert.now.penalty) × (cert.now.penalty ≤ℤ pos (10 ^ 36))
        × IsLength cert.now.length
        × StandsFor points.now cert.now.penalty cert.now.length cert.now) }
{
    best_list_law();
    least_sum_law();
    walk_law();
    squares_law();
    certificate_law();
    let n = points.len();
    let penalty = cert.penalty;
    let least = cert.least.as_slice();
    let back = cert.back.as_slice();
    if cert.points != n as u64 || penalty < 0 || penalty > GREATEST_PENALTY {
        return false;
    }
    if cert.length == 0 || cert.length > 64 {
        return false;
    }
    let len = usize::from(cert.length);
    if !are_tables(sums, penalty, len, least, back, cert.pruned.as_slice()) {
        return false;
    }
    if !cuts_hold(cert.cuts.as_slice(), back, n) {
        return false;
    }
    are_equal(cert.total, total_of(least, n))
}

// Whether two numbers are equal.
fn are_equal(one: i128, other: i128) -> bool
    ensures { IsTrue result ↔ (one ≡ other) }
{
    one == other
}

// The least total of all positions; no positions have a total of 0.
fn total_of(least: &[i128], n: usize) -> i128
    requires { n < length least.now }
    ensures none { n ≡ 0 → result ≡ pos 0 }
    ensures some { 0 < n → result ≡ int_at least.now n }
{
    if n == 0 { 0 } else { least[n] }
}

// Whether the three lists are the tables of the positions for that penalty.
fn are_tables(
    square: &Square,
    penalty: i128,
    len: usize,
    least: &[i128],
    back: &[u16],
    pruned: &[u16],
) -> bool
    requires low { pos 0 ≤ℤ penalty }
    requires high { penalty ≤ℤ pos (10 ^ 36) }
    requires length { IsLength len }
    ensures { IsTrue result
        ↔ IsTable (cost_between least_sum_of square.now.positions) (length square.now.positions)
        penalty len least.now back.now pruned.now }
{
    square.limits();
    squares_law();
    table_law();
    value_costs_law();
    let places = square.len() + 1;
    if least.len() != places || back.len() != places || pruned.len() != places {
        return false;
    }
    if !are_totals(least) {
        return false;
    }
    let tables = Tables {
        square,
        penalty,
        len,
        least,
        back,
        pruned,
    };
    are_right(&tables)
}

// Whether the tables are those of the positions for the penalty.
fn are_right(tables: &Tables) -> bool
    ensures { IsTrue result ↔ AreRight tables.now }
{
    verifying_law();
    if !is_first(tables.least[0], tables.penalty) {
        return false;
    }
    if !is_none(tables.back[0]) {
        return false;
    }
    if !rows_hold(tables) {
        return false;
    }
    places_hold(tables)
}

// Whether the total of place 0 is minus the penalty.
fn is_first(total: i128, penalty: i128) -> bool
    requires low { pos 0 ≤ℤ penalty }
    requires high { penalty ≤ℤ pos (10 ^ 36) }
    ensures { IsTrue result ↔ (total ≡ neg_ℤ penalty) }
{
    total == -penalty
}

// Whether there is no last cut.
fn is_none(last_cut: u16) -> bool
    ensures { IsTrue result ↔ (last_cut ≡ 0) }
{
    last_cut == 0
}
