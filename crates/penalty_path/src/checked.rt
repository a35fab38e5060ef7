//! Whether stretches are the path of some points.
ghost use Rattle.std.specs.Prelude.{◌≡◌, ◌↔◌, ◌^◌, ◌≤◌, IsTrue, length, pos, ◌≤ℤ◌, ◌<ℤ◌};
ghost use Rattle.segment_model.specs.Values.{values_by_position};
ghost use Rattle.penalty_path.specs.{Paths.{IsRange, IsStretch, IsPath}, Steps.{IsStep, IsJoined}};

use crate::laws::points_law;
use crate::stretch::{Stretch, Stretches};
use cost_certificate::check;
use line_text::Numbers;
use segment_cost::{Points, Square};

/// Whether the stretches are the path of the points from one penalty to another.
///
/// Two checks of a certificate for each stretch. Takes no memory.
pub fn check_path(given: &Stretches, points: &Points, sums: &Square, low: i128, high: i128) -> bool
    requires few { length points.now ≤ 1_024 }
    requires stands { sums.now.positions ≡ values_by_position points.now }
    requires range { IsRange low high }
    ensures { IsTrue result ↔ IsPath points.now low high given.now }
{
    points_law();
    let mut from = low;
    let mut rest = given.as_slice();
    while let Some((stretch, more)) = rest.split_first() {
        if !step_holds(stretch, more, points, sums, from, high) {
            return false;
        }
        if more.is_empty() {
            return true;
        }
        from = stretch.to + 1;
        rest = more;
    }
    false
}

// Whether the first of some stretches is one that begins at a penalty, and either ends the range or has other cuts than
// the next.
fn step_holds(
    stretch: &Stretch,
    more: &[Stretch],
    points: &Points,
    sums: &Square,
    from: i128,
    high: i128,
) -> bool
    requires stands { sums.now.positions ≡ values_by_position points.now }
    requires range { IsRange from high }
    ensures { IsTrue result ↔ IsStep points.now from high stretch.now more.now }
{
    if !is_between(stretch, from, high) {
        return false;
    }
    if !holds(stretch, points, sums) {
        return false;
    }
    is_joined(stretch, more, high)
}

// Whether a stretch begins at a penalty and ends at another at most.
fn is_between(stretch: &Stretch, from: i128, high: i128) -> bool
    ensures { IsTrue result ↔ ((stretch.now.from ≡ from) × (stretch.now.to ≤ℤ high)) }
{
    stretch.from == from && stretch.to <= high
}

// Whether what follows a stretch may do so.
fn is_joined(stretch: &Stretch, more: &[Stretch], high: i128) -> bool
    ensures { IsTrue result ↔ IsJoined high stretch.now more.now }
{
    if let Some(next) = more.first() {
        return is_below(stretch.to, high) && !same_cuts(&next.first.cuts, &stretch.last.cuts);
    }
    are_equal(stretch.to, high)
}

// Whether a stretch is one of the points.
fn holds(stretch: &Stretch, points: &Points, sums: &Square) -> bool
    requires { sums.now.positions ≡ values_by_position points.now }
    ensures { IsTrue result
        ↔ ((pos 0 ≤ℤ stretch.now.from) × (stretch.now.to ≤ℤ pos (10 ^ 36))
        × IsStretch points.now stretch.now) }
{
    points_law();
    if !has_ends(stretch) {
        return false;
    }
    if !check(&stretch.first, points, sums) {
        return false;
    }
    if !check(&stretch.last, points, sums) {
        return false;
    }
    same_cuts(&stretch.first.cuts, &stretch.last.cuts)
}

// Whether the certificates of a stretch are for its ends, and for segments of one position or more.
fn has_ends(stretch: &Stretch) -> bool
    ensures { IsTrue result ↔ ((stretch.now.first.penalty ≡ stretch.now.from)
        × (stretch.now.last.penalty ≡ stretch.now.to) × (stretch.now.from ≤ℤ stretch.now.to)
        × (stretch.now.first.length ≡ 1) × (stretch.now.last.length ≡ 1)) }
{
    are_equal(stretch.first.penalty, stretch.from)
        && are_equal(stretch.last.penalty, stretch.to)
        && stretch.from <= stretch.to
        && stretch.first.length == 1
        && stretch.last.length == 1
}

// Whether two numbers are equal.
pub(crate) fn are_equal(one: i128, other: i128) -> bool
    ensures { IsTrue result ↔ (one ≡ other) }
{
    one == other
}

// Whether a number is below another.
fn is_below(one: i128, other: i128) -> bool
    ensures { IsTrue result ↔ (one <ℤ other) }
{
    one < other
}

// Whether two cut lists are equal.
pub(crate) fn same_cuts(one: &Numbers, other: &Numbers) -> bool
    ensures { IsTrue result ↔ (one.now ≡ other.now) }
{
    one.as_slice() == other.as_slice()
}
