//! The places that may still be a last cut: which of them makes the least total, and which of them are dear.
ghost use Rattle.std.specs.Prelude.{◌≡◌, ◌≢◌, ℕ, ◌+◌, ◌*◌, ◌^◌, ◌<◌, ◌≤◌, length, pos, neg_ℤ, ◌≤ℤ◌, ◌<ℤ◌, filter, ◌&&◌, ◌↔◌, IsTrue, ◌||◌, slice_index, vec_capacity};
ghost use Rattle.segment_model.specs.{Tables.{int_at, MayBegin, IsMarkedAt, IsUnmarkedBehind}, Values.cost_between};
ghost use Rattle.pelt_core.specs.Candidates.{begins, stays, open_places, total_from, HaveTotals, AreCandidates, AreLookedAt, IsAmong};

use segment_cost::Cost;
use segment_model::value_costs_law;

// What a last segment from place s to the end makes, without the penalty before it.
pub fn last_total<C: Cost>(cost: &C, least: &[i128], s: usize) -> i128
    requires totals { HaveTotals (C.positions cost.now) least.now }
    requires below { s < length (C.positions cost.now) }
    ensures total { result
        ≡ total_from (cost_between C.cost_of (C.positions cost.now)) least.now
        (length (C.positions cost.now)) s }
    ensures low { neg_ℤ (pos (10 ^ 36)) ≤ℤ result }
    ensures high { result ≤ℤ pos (2 * 10 ^ 37) }
{
    value_costs_law();
    least[s] + cost.cost(s, cost.len())
}

// Whether the segment from place s to the end makes more than the least total there.
fn is_costly<C: Cost>(cost: &C, least: &[i128], s: usize) -> bool
    requires totals { HaveTotals (C.positions cost.now) least.now }
    requires least { length least.now ≡ length (C.positions cost.now) + 1 }
    requires below { s < length (C.positions cost.now) }
    ensures { IsTrue result ↔ (int_at least.now (length (C.positions cost.now))
        <ℤ total_from (cost_between C.cost_of (C.positions cost.now)) least.now
        (length (C.positions cost.now)) s) }
{
    last_total(cost, least, s) > least[cost.len()]
}

// Marks place s with the number of positions, where it has no mark and the segment from there to the end is dear; says whether
// it did.
fn mark<C: Cost>(cost: &C, least: &[i128], pruned: &mut [u16], s: usize) -> bool
    requires totals { HaveTotals (C.positions cost.now) least.now }
    requires least { length least.now ≡ length (C.positions cost.now) + 1 }
    requires pruned { length pruned.old ≡ length (C.positions cost.now) + 1 }
    requires below { s < length (C.positions cost.now) }
    ensures marked { (len : ℕ) → MayBegin len s
        → IsMarkedAt (cost_between C.cost_of (C.positions cost.now)) len least.now
        (length (C.positions cost.now)) s (slice_index pruned.old s) (slice_index pruned.new s) }
    ensures others { (r : ℕ) → r ≢ s → slice_index pruned.new r ≡ slice_index pruned.old r }
{
    if pruned[s] > 0 {
        return false;
    }
    if !is_costly(cost, least, s) {
        return false;
    }
    pruned[s] = cost.len() as u16;
    true
}

// Whether one of two things is so.
pub fn either(one: bool, other: bool) -> bool
    ensures { result ≡ (one || other) }
{
    one || other
}

// Looks at the first `count` candidates, and marks those without a mark that are dear; says whether there were some.
pub fn mark_first<C: Cost>(
    cost: &C,
    least: &[i128],
    pruned: &mut [u16],
    candidates: &[u16],
    count: usize,
) -> bool
    requires candidates { AreCandidates (C.positions cost.now) least.now candidates.now }
    requires count { count ≤ length candidates.now }
    requires least { length least.now ≡ length (C.positions cost.now) + 1 }
    requires pruned { length pruned.old ≡ length (C.positions cost.now) + 1 }
    ensures { (len : ℕ)
        → ((i : ℕ) → i < length candidates.now → MayBegin len (slice_index candidates.now i))
        → AreLookedAt (cost_between C.cost_of (C.positions cost.now)) len least.now
        (length (C.positions cost.now))
        (IsAmong candidates.now count) pruned.old pruned.new }
{
    let mut any = false;
    for i in 0..count {
        let here = mark(cost, least, pruned, usize::from(candidates[i]));
        any = either(any, here);
    }
    any
}

// The same for the places from `from` on, before `to`.
pub fn mark_between<C: Cost>(
    cost: &C,
    least: &[i128],
    pruned: &mut [u16],
    from: usize,
    to: usize,
) -> bool
    requires totals { HaveTotals (C.positions cost.now) least.now }
    requires inside { to ≤ length (C.positions cost.now) }
    requires least { length least.now ≡ length (C.positions cost.now) + 1 }
    requires pruned { length pruned.old ≡ length (C.positions cost.now) + 1 }
    ensures { (len : ℕ) → ((s : ℕ) → from ≤ s → s < to → MayBegin len s)
        → AreLookedAt (cost_between C.cost_of (C.positions cost.now)) len least.now
        (length (C.positions cost.now))
        (λ s. (from ≤ s) × (s < to)) pruned.old pruned.new }
{
    let mut any = false;
    for s in from..to {
        let here = mark(cost, least, pruned, s);
        any = either(any, here);
    }
    any
}

// Keeps the candidates that have no mark up to place g.
pub fn drop_marked(candidates: &mut Vec<u16>, pruned: &[u16], g: usize)
    ensures items { candidates.new.items ≡ filter (stays g pruned.now) candidates.old.items }
    ensures capacity { vec_capacity candidates.old ≤ vec_capacity candidates.new }
{
    candidates.retain(|c| has_no_mark(pruned, g, usize::from(*c)));
}

// Whether place s is there, and has no mark up to place g.
fn has_no_mark(pruned: &[u16], g: usize, s: usize) -> bool
    ensures { result ≡ stays g pruned.now s }
{
    s < pruned.len() && (pruned[s] == 0 || usize::from(pruned[s]) > g)
}

// Whether a segment may begin at place s.
fn may_begin(len: usize, s: usize) -> bool
    ensures { result ≡ begins len s }
{
    s == 0 || s >= len
}

// Takes away the marks behind place k.
pub fn unmark(pruned: &mut [u16], k: usize)
    ensures { (s : ℕ) → s < length pruned.old
        → IsUnmarkedBehind k (slice_index pruned.old s) (slice_index pruned.new s) }
{
    for i in 0..pruned.len() {
        if usize::from(pruned[i]) > k {
            pruned[i] = 0;
        }
    }
}

// Makes the places before `end` candidates that have no mark up to place g, and at which a segment may begin.
pub fn refill(candidates: &mut Vec<u16>, pruned: &[u16], len: usize, g: usize, end: usize)
    requires room { end ≤ vec_capacity candidates.old }
    requires few { end ≤ 16_385 }
    ensures places { candidates.new.items ≡ open_places len g pruned.now end }
    ensures capacity { vec_capacity candidates.old ≤ vec_capacity candidates.new }
{
    candidates.truncate(0);
    for place in 0..end {
        if is_open(pruned, len, g, place) {
            candidates.push_reserved(place as u16);
        }
    }
}

// Whether place s is a candidate, where marks up to place g count.
fn is_open(pruned: &[u16], len: usize, g: usize, s: usize) -> bool
    ensures { result ≡ (begins len s && stays g pruned.now s) }
{
    may_begin(len, s) && has_no_mark(pruned, g, s)
}
