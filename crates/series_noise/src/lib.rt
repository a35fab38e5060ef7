//! The noise of a series, from which the penalty of its metric can be set.
//!
//! It is the lower median of how far each position's centre is from the one before it (`specs/Noise.antt`): most positions
//! stand beside others of their own level, so the few changes of level don't move it. `noise_law` says that points have
//! one noise.
//!
//! Stands on the definitions of `segment_model` and on the points and centres of `segment_cost`.
#![tactic(auto)]

ghost use Rattle.std.specs.Prelude.{◌≡◌, ◌+◌, ◌*◌, ◌^◌, ◌<◌, ◌≤◌, length, IfOk};
ghost use Rattle.segment_model.specs.Values.{values_by_position};
ghost use Rattle.series_noise.specs.Noise.{IsDistance, AreDistances, IsNoise, OneNoise};

use segment_cost::{Cost, FrozenPoints, Square};
use segment_model::{centre_law, segment_law, sums_law, values_law};
pub use std::alloc::AllocError as NoMemory;
use std::alloc::Global;

/// The noise of points of which there are two at least; it is at most 2 * 10^16, since no value is above 10^16.
///
/// O(n log n + v) time for n positions with v values. The only error is want of memory.
pub fn noise(alloc: Global, points: &FrozenPoints) -> Result<u64, NoMemory>
    requires { 1 < length points.now }
    ensures noise { IfOk result (λ noise. IsNoise points.now noise) }
    ensures small { IfOk result (λ noise. noise ≤ 2 * 10 ^ 16) }
{
    points.limits();
    segment_law();
    sums_law();
    centre_law();
    let mut distances = distances_of(alloc, points)?;
    distances.sort_unstable();
    Ok(distances[(distances.len() - 1) / 2])
}

/// Points have one noise.
pub fn noise_law()
    ensures { OneNoise }
{
    centre_law();
}

// The distances of all neighbours, in order.
fn distances_of(alloc: Global, points: &FrozenPoints) -> Result<Vec<u64>, NoMemory>
    requires { 1 < length points.now }
    ensures { IfOk result (λ made. AreDistances points.now made.items) }
{
    let square = Square::of_frozen(alloc, points)?;
    let mut made = Vec::new(alloc);
    for i in 0..points.len() - 1 {
        made.push(distance(points, &square, i))?;
    }
    Ok(made)
}

// How far position i + 1 is from position i.
fn distance(points: &FrozenPoints, square: &Square, i: usize) -> u64
    requires stands { square.now.positions ≡ values_by_position points.now }
    requires placed { i + 1 < length points.now }
    ensures { IsDistance points.now i result }
{
    points.limits();
    segment_law();
    values_law();
    centre_law();
    let before = square.centre(i, i + 1);
    let after = square.centre(i + 1, i + 2);
    after.abs_diff(before)
}
