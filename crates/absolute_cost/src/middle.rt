//! The value in the middle of some values, and the sum of their distances from a number.
ghost use Rattle.std.specs.Prelude.{◌≡◌, ◌*◌, ◌^◌, ◌<◌, ◌≤◌, All, length, pos, ◌+ℤ◌, ◌-ℤ◌};
ghost use Rattle.segment_model.specs.Limits.{IsSmall};
ghost use Rattle.distance_model.specs.{Distances.{distances_about, middle_of}, Middles.at_most};
ghost use Rattle.absolute_cost.specs.{Between.{AreSmall, IsBetween}, Blocks.{AreBlocks, all_of}};

use crate::blocks::{count_in_blocks, with_blocks};
use crate::ends::Ends;
use crate::pieces::Pieces;

// A span below this can be multiplied by a count.
const WIDE: u64 = 1 << 40;

// The middle of the values, which is looked for among the numbers from the least value to the greatest: at most two counts
// for each bit of the distance between these.
pub fn middle(pieces: Pieces<'_>) -> i64
    requires blocks { AreBlocks pieces.whole.now }
    requires some { 0 < length (all_of pieces.head.now pieces.whole.now pieces.tail.now) }
    requires few { length (all_of pieces.head.now pieces.whole.now pieces.tail.now) ≤ 65_536 }
    requires small { All IsSmall (all_of pieces.head.now pieces.whole.now pieces.tail.now) }
    ensures middle { result ≡ middle_of
        (all_of pieces.entry.head.now pieces.entry.whole.now pieces.entry.tail.now) }
    ensures small { IsSmall result }
{
    let ends = ends_of(pieces);
    middle_from(pieces, ends.least, ends.greatest.abs_diff(ends.least))
}

// A value, where there is one before or in the blocks.
fn some_value(pieces: Pieces<'_>) -> i64
    requires { All IsSmall (all_of pieces.head.now pieces.whole.now pieces.tail.now) }
    ensures { IsSmall result }
{
    if pieces.head.len() > 0 {
        return pieces.head[0];
    }
    if pieces.whole.len() > 0 {
        return pieces.whole[0];
    }
    0
}

// Two numbers with the values between them, each one of these where there is one before or in the blocks.
fn ends_of(pieces: Pieces<'_>) -> Ends
    requires blocks { AreBlocks pieces.whole.now }
    requires small { All IsSmall (all_of pieces.head.now pieces.whole.now pieces.tail.now) }
    ensures small { AreSmall result }
    ensures between { All (IsBetween result)
        (all_of pieces.entry.head.now pieces.entry.whole.now pieces.entry.tail.now) }
{
    let start = some_value(pieces);
    let one = Ends {
        least: start,
        greatest: start,
    };
    let inside = with_blocks(one.with_values(pieces.tail), pieces.whole);
    inside.with_values(pieces.head)
}

// The middle, which is a number from `least` to `span` above it.
fn middle_from(pieces: Pieces<'_>, least: i64, span: u64) -> i64
    requires blocks { AreBlocks pieces.whole.now }
    requires some { 0 < length (all_of pieces.head.now pieces.whole.now pieces.tail.now) }
    requires few { length (all_of pieces.head.now pieces.whole.now pieces.tail.now) ≤ 65_536 }
    requires small { IsSmall least }
    requires span { IsSmall (least +ℤ pos span) }
    requires above { at_most (least -ℤ pos 1) (all_of pieces.head.now pieces.whole.now pieces.tail.now)
        ≡ 0 }
    requires below { at_most (least +ℤ pos span) (all_of pieces.head.now pieces.whole.now pieces.tail.now)
        ≡ length (all_of pieces.head.now pieces.whole.now pieces.tail.now) }
    ensures middle { result ≡ middle_of
        (all_of pieces.entry.head.now pieces.entry.whole.now pieces.entry.tail.now) }
    ensures small { IsSmall result }
{
    let count = count_of(pieces);
    let mut low = 0;
    let mut high = span;
    let mut below = 0;
    let mut up_to = count;
    let mut halves = false;
    while low < high {
        halves = !halves;
        let wanted = (count / 2).saturating_sub(below);
        let mid = low + step(high - low, wanted, up_to.saturating_sub(below), halves);
        let here = count_at_most(pieces, number_at(least, mid));
        if 2 * here >= count {
            high = mid;
            up_to = here;
        } else {
            low = mid + 1;
            below = here;
        }
    }
    number_at(least, low)
}

// How far above the lowest number the next one to try stands: halfway to the highest one, or where the middle would be if
// the values between them lay evenly. Any number below the span is right.
fn step(span: u64, wanted: usize, among: usize, halves: bool) -> u64
    requires some { 0 < span }
    requires few { wanted ≤ 65_536 }
    ensures { result < span }
{
    if halves || among == 0 {
        return span / 2;
    }
    if span >= WIDE {
        return span / 2;
    }
    (span * wanted as u64 / among as u64).min(span - 1)
}

// The number that stands so far above another.
fn number_at(least: i64, above: u64) -> i64
    requires small { IsSmall least }
    requires near { IsSmall (least +ℤ pos above) }
    ensures { result ≡ least +ℤ pos above }
{
    least + above as i64
}

// How many values there are.
fn count_of(pieces: Pieces<'_>) -> usize
    requires { length (all_of pieces.head.now pieces.whole.now pieces.tail.now) ≤ 65_536 }
    ensures { result ≡ length
        (all_of pieces.entry.head.now pieces.entry.whole.now pieces.entry.tail.now) }
{
    pieces.head.len() + pieces.whole.len() + pieces.tail.len()
}

// How many values are at most a number: a look at each value before and behind the blocks, and a search in each block.
fn count_at_most(pieces: Pieces<'_>, c: i64) -> usize
    requires blocks { AreBlocks pieces.whole.now }
    requires few { length (all_of pieces.head.now pieces.whole.now pieces.tail.now) ≤ 65_536 }
    ensures { result ≡ at_most c
        (all_of pieces.entry.head.now pieces.entry.whole.now pieces.entry.tail.now) }
{
    count_in(pieces.head, c) + count_in_blocks(pieces.whole, c) + count_in(pieces.tail, c)
}

// How many values are at most a number.
fn count_in(values: &[i64], c: i64) -> usize
    ensures { result ≡ at_most c values.now }
{
    values.iter().filter(|x| **x <= c).count()
}

// The sum of the distances of the values from a number.
pub fn sum_of_distances(pieces: Pieces<'_>, c: i64) -> u128
    requires { distances_about c (all_of pieces.head.now pieces.whole.now pieces.tail.now) < 2 ^ 128 }
    ensures { result ≡ distances_about c
        (all_of pieces.entry.head.now pieces.entry.whole.now pieces.entry.tail.now) }
{
    distances_in(pieces.head, c) + distances_in(pieces.whole, c) + distances_in(pieces.tail, c)
}

// The sum of the distances of some values from a number.
fn distances_in(values: &[i64], c: i64) -> u128
    requires { distances_about c values.now < 2 ^ 128 }
    ensures { result ≡ distances_about c values.now }
{
    values.iter().map(|x| u128::from(x.abs_diff(c))).sum()
}
