//! The changes of a finished segmentation.
ghost use Rattle.std.specs.Prelude.{◌≡◌, ℕ, ◌+◌, ◌<◌, ◌≤◌, length, slice_index, IfOk, IsTrue, ◌↔◌};
ghost use Rattle.segment_model.specs.{Segments.{IsCentre, segment}, Cuts.{place_before, place_behind}, Values.values_by_position};
ghost use Rattle.change_list.specs.Changes.{IsWorse, IsChange, IsBetween, AreChanges};

use crate::ChangeItems;
use crate::change::Change;
use metric_table::larger_is_better;
use segment_cost::{Cost, Done, FrozenPoints, NoMemory, Square};
use segment_model::{centre_law, joining_law, segment_law, values_law};
use std::alloc::Global;

/// One change for each cut, in order: the last commit before it and the first behind it, the centres of the segments
/// beside it, and whether the one behind it is worse by the metric's direction. The centres are never equal.
///
/// Linear in the values of the points.
pub fn changes(alloc: Global, done: &Done) -> Result<ChangeItems, NoMemory>
    ensures { IfOk result (λ made.
        AreChanges done.now.points done.now.metric done.now.cert.cuts made) }
{
    cuts_law(done);
    let points = &done.points;
    let square = Square::of_frozen(alloc, points)?;
    let larger = larger_is_better(done.metric.as_str().as_bytes());
    let cuts = done.cert.cuts.as_slice();
    let n = points.len();
    let mut made = ChangeItems::new(alloc);
    for i in 0..cuts.len() {
        let low = low_of(cuts, i);
        let high = high_of(cuts, n, i);
        made.push(change_at(points, &square, larger, low, cuts[i] as usize, high))?;
    }
    Ok(made)
}

// Each cut stands between the places beside it, and the centres there differ. Does nothing.
pub(crate) fn cuts_law(done: &Done)
    ensures { (i : ℕ) → i < length done.now.cert.cuts
        → IsBetween done.now.points (place_before done.now.cert.cuts i)
        (slice_index done.now.cert.cuts i)
        (place_behind done.now.cert.cuts (length done.now.points) i) }
{
    joining_law();
    let _ = &done.cert;
}

// The place before cut i, or behind the last one.
pub(crate) fn low_of(cuts: &[u64], i: usize) -> usize
    requires { i ≤ length cuts.now }
    ensures { result ≡ place_before cuts.now i }
{
    if i == 0 { 0 } else { cuts[i - 1] as usize }
}

// The place behind cut i, where there are n positions.
fn high_of(cuts: &[u64], n: usize, i: usize) -> usize
    requires { i < length cuts.now }
    ensures { result ≡ place_behind cuts.now n i }
{
    if i + 1 < cuts.len() {
        cuts[i + 1] as usize
    } else {
        n
    }
}

// The centre of a segment.
pub(crate) fn centre_at(points: &FrozenPoints, square: &Square, low: usize, high: usize) -> i64
    requires stands { square.now.positions ≡ values_by_position points.now }
    requires rising { low < high }
    requires placed { high ≤ length points.now }
    ensures { IsCentre (segment points.now low high) result }
{
    points.limits();
    segment_law();
    values_law();
    centre_law();
    square.centre(low, high)
}

// The change at a cut with the places beside it.
fn change_at(
    points: &FrozenPoints,
    square: &Square,
    larger: bool,
    low: usize,
    cut: usize,
    high: usize,
) -> Change
    requires stands { square.now.positions ≡ values_by_position points.now }
    requires between { IsBetween points.now low cut high }
    ensures { IsChange points.now larger low cut high result }
{
    let left = centre_at(points, square, low, cut);
    let right = centre_at(points, square, cut, high);
    Change {
        before: points.commit(cut - 1),
        after: points.commit(cut),
        left,
        right,
        worse: is_worse(larger, left, right),
    }
}

// Whether the right value is worse than the left one.
fn is_worse(larger: bool, left: i64, right: i64) -> bool
    ensures { IsTrue result ↔ IsWorse larger left right }
{
    if larger { right < left } else { left < right }
}
