//! Single entries of the tables, and pairs of places.
ghost use Rattle.std.specs.Prelude.{◌≡◌, ◌≢◌, ℕ, ◌+◌, ◌^◌, ◌<◌, ◌≤◌, pos, ◌≤ℤ◌, ◌<ℤ◌, ◌↔◌, IfSome, IfNone, IsTrue, ◌*◌, ◌⊎◌, neg_ℤ, ◌+ℤ◌};
ghost use Rattle.segment_model.specs.{Limits.IsLength, Tables.{MayBegin, IsMark, IsSettled}};
ghost use Rattle.cost_certificate.specs.{Totals.AreTotals, Checks.{IsFloor, MarkHolds, OrderHolds, PairHolds, RowHolds, cost_in, last_place, total_at}};

use crate::tables::Tables;
use segment_cost::{Cost, is_candidate};

const LEAST_TOTAL: i128 = -1_000_000_000_000_000_000_000_000_000_000_000_000;

const GREATEST_TOTAL: i128 = 10_000_000_000_000_000_000_000_000_000_000_000_000;

// Whether each number is such as a least total can be.
pub fn are_totals(least: &[i128]) -> bool
    ensures { IsTrue result ↔ AreTotals least.now }
{
    for total in least {
        if *total < LEAST_TOTAL || *total > GREATEST_TOTAL {
            return false;
        }
    }
    true
}

// What a last segment from place s to place t makes, without the penalty before it.
pub fn made_from(tables: &Tables, s: usize, t: usize) -> i128
    requires placed { t ≤ last_place tables.now }
    requires below { s < t }
    ensures total { result ≡ total_at tables.now s +ℤ cost_in tables.now s t }
    ensures low { neg_ℤ (pos (10 ^ 36)) ≤ℤ result }
    ensures high { result ≤ℤ pos (2 * 10 ^ 37) }
{
    tables.least[s] + tables.square.cost(s, t)
}

// Whether the last cut of place t is one of its candidates and makes its total.
fn row_holds(tables: &Tables, t: usize) -> bool
    requires placed { t ≤ last_place tables.now }
    requires some { 0 < t }
    ensures { IsTrue result ↔ RowHolds tables.now t }
{
    let s = tables.back[t] as usize;
    if !is_candidate(tables.len, t, s) {
        return false;
    }
    tables.least[t] == made_from(tables, s, t) + tables.penalty
}

// Whether each row holds.
pub fn rows_hold(tables: &Tables) -> bool
    ensures { IsTrue result ↔ ((t : ℕ) → 0 < t → t ≤ last_place tables.now
        → RowHolds tables.now t) }
{
    for t in 1..tables.back.len() {
        if !row_holds(tables, t) {
            return false;
        }
    }
    true
}

// Whether a last cut settles place s.
fn is_settled(len: usize, last_cut: usize, s: usize) -> bool
    ensures { IsTrue result ↔ IsSettled len last_cut s }
{
    if last_cut == s {
        return true;
    }
    is_candidate(len, s, last_cut)
}

// Whether a place with that mark is open at place t.
fn is_open(len: usize, mark: usize, t: usize) -> bool
    requires { 0 < len }
    ensures { IsTrue result ↔ ((mark ≡ 0) ⊎ (t < mark + len)) }
{
    if mark == 0 {
        return true;
    }
    if t < mark {
        return true;
    }
    t - mark < len
}

// Whether the segment from place s is dear, where it makes that.
fn is_dear(len: usize, s: usize, total: i128, from_here: i128) -> bool
    ensures { IsTrue result ↔ (MayBegin len s × (total <ℤ from_here)) }
{
    if s > 0 && s < len {
        return false;
    }
    total < from_here
}

// Whether the totals of two places fit together, where the last segment makes that, with the penalty before it.
fn order_holds(tables: &Tables, made: i128, s: usize, t: usize) -> bool
    requires placed { t ≤ last_place tables.now }
    requires below { s < t }
    requires made { made ≡ total_at tables.now s +ℤ cost_in tables.now s t +ℤ tables.now.penalty }
    ensures { IsTrue result ↔ OrderHolds tables.now s t }
{
    if !is_candidate(tables.len, t, s) {
        return true;
    }
    if !is_open(tables.len, tables.pruned[s] as usize, t) {
        return true;
    }
    no_less(tables.least[t], made, s, tables.back[t] as usize)
}

// Whether the mark of place s fits to place t, where the last segment makes that, without the penalty before it.
fn mark_holds(tables: &Tables, from_here: i128, s: usize, t: usize) -> bool
    requires placed { t ≤ last_place tables.now }
    requires below { s < t }
    requires made { from_here ≡ total_at tables.now s +ℤ cost_in tables.now s t }
    ensures { IsTrue result ↔ MarkHolds tables.now s t }
{
    let mark = tables.pruned[s] as usize;
    if is_before(mark, t) {
        return true;
    }
    if is_settled(tables.len, tables.back[t] as usize, s) {
        return mark != t;
    }
    is_marked(is_dear(tables.len, s, tables.least[t], from_here), mark, t)
}

// Whether there is a mark, before place t.
fn is_before(mark: usize, t: usize) -> bool
    ensures { IsTrue result ↔ ((mark ≢ 0) × (mark < t)) }
{
    mark != 0 && mark < t
}

// Whether place t is the mark where a place is dear there, and isn't elsewhere.
fn is_marked(dear: bool, mark: usize, t: usize) -> bool
    ensures { IsTrue result ↔ (IsTrue dear ↔ (mark ≡ t)) }
{
    if dear { mark == t } else { mark != t }
}

// Whether the pair of places holds, where the last segment makes that, without the penalty before it.
fn pair_holds(tables: &Tables, from_here: i128, s: usize, t: usize) -> bool
    requires placed { t ≤ last_place tables.now }
    requires below { s < t }
    requires made { from_here ≡ total_at tables.now s +ℤ cost_in tables.now s t }
    requires made_low { neg_ℤ (pos (10 ^ 36)) ≤ℤ from_here }
    requires made_high { from_here ≤ℤ pos (2 * 10 ^ 37) }
    ensures { IsTrue result ↔ PairHolds tables.now s t }
{
    if !order_holds(tables, from_here + tables.penalty, s, t) {
        return false;
    }
    mark_holds(tables, from_here, s, t)
}

// The first place from which on all are settled by that last cut.
pub fn reach_of(len: usize, last_cut: usize) -> usize
    requires { IsLength len }
    ensures { (s : ℕ) → result ≤ s → s ≤ 16_384 → IsSettled len last_cut s }
{
    if last_cut == 0 {
        return 0;
    }
    if last_cut < len || last_cut > 16_384 {
        return 16_385;
    }
    if len == 1 {
        return last_cut;
    }
    last_cut + len
}

// Whether place s has to be looked at: it may not be settled, or what the last segment makes, which is at least `floor`, may
// be less than the total.
fn needs_look(floor: i128, penalty: i128, total: i128, s: usize, reach: usize) -> bool
    requires low { pos 0 ≤ℤ penalty }
    requires high { penalty ≤ℤ pos (10 ^ 36) }
    requires floor_low { neg_ℤ (pos (10 ^ 36)) ≤ℤ floor }
    requires floor_high { floor ≤ℤ pos (2 * 10 ^ 37) }
    ensures { IsTrue result ↔ ((s < reach) ⊎ ((floor +ℤ penalty) <ℤ total)) }
{
    s < reach || floor + penalty < total
}

// Whether a number is that place.
fn is_place(number: u16, t: usize) -> bool
    ensures { IsTrue result ↔ (number ≡ t) }
{
    number as usize == t
}

// Whether a total is at most what another place makes, and less where that place lies before the last cut.
fn no_less(total: i128, made: i128, s: usize, last_cut: usize) -> bool
    ensures { IsTrue result ↔ ((total ≤ℤ made) × (s < last_cut → total <ℤ made)) }
{
    total < made || total == made && last_cut <= s
}

// Whether a place may be the mark of place s.
pub fn is_mark(n: usize, s: usize, mark: usize) -> bool
    ensures { IsTrue result ↔ IsMark n s mark }
{
    mark == 0 || s < mark && mark <= n
}

// The last place up to `end` at which a place with that mark is open.
pub fn last_open(len: usize, end: usize, mark: usize) -> usize
    requires length { IsLength len }
    requires few { end ≤ 16_384 }
    ensures within { result ≤ end }
    ensures open { (t : ℕ) → t ≤ result → (mark ≡ 0) ⊎ (t < mark + len) }
    ensures all { (t : ℕ) → t ≤ end → (mark ≡ 0) ⊎ (t < mark + len) → t ≤ result }
{
    if mark == 0 {
        return end;
    }
    if mark > end {
        return end;
    }
    end.min(mark + len - 1)
}

// What a last segment from s makes at least to the places behind t, where the pair of places holds; none where it doesn't.
//
// It is looked at only where `floor`, which is at most what the segment to t makes, doesn't tell.
fn next_floor(tables: &Tables, floor: i128, s: usize, t: usize) -> Option<i128>
    requires placed { t ≤ last_place tables.now }
    requires below { s < t }
    requires floor { IsFloor tables.now s t floor }
    ensures holds { IfSome result (λ next. PairHolds tables.now s t) }
    ensures floor { IfSome result (λ next. IsFloor tables.now s (t + 1) next) }
    ensures none { IfNone result (¬ PairHolds tables.now s t) }
{
    if !needs_look(
        floor,
        tables.penalty,
        tables.least[t],
        s,
        reach_of(tables.len, tables.back[t] as usize),
    ) {
        if is_place(tables.pruned[s], t) {
            return None;
        }
        return Some(floor);
    }
    let made = made_from(tables, s, t);
    if !pair_holds(tables, made, s, t) {
        return None;
    }
    Some(made)
}

// Whether each pair of s with a place behind `from`, up to `end`, holds.
pub fn pairs_hold(tables: &Tables, s: usize, from: usize, end: usize) -> bool
    requires placed { s ≤ from }
    requires inside { from ≤ last_place tables.now }
    requires ends { end ≤ last_place tables.now }
    ensures { IsTrue result ↔ ((t : ℕ) → from < t → t ≤ end → PairHolds tables.now s t) }
{
    let mut floor = tables.least[s];
    for t in from + 1..end + 1 {
        let Some(next) = next_floor(tables, floor, s, t) else {
            return false;
        };
        floor = next;
    }
    true
}
