//! Values of which each whole block stands in order.
ghost use Rattle.std.specs.Prelude.{◌≡◌, ◌+◌, ◌<◌, ◌≤◌, ◌++◌, length, All, vec_len, vec_capacity};
ghost use Rattle.segment_model.specs.Limits.{IsSmall};
ghost use Rattle.distance_model.specs.Middles.{at_most};
ghost use Rattle.absolute_cost.specs.{Between.{AreSmall, HaveTaken}, Blocks.{AreInOrder, AreBlocks, AreBlocksOf, IsAdded, IsSortedFrom}};

use crate::ends::Ends;

// How many values a block has.
pub const BLOCK: usize = 32;

// Adds the blocks of the values that aren't there yet, as far as there is room: O(n log n) in those of their values.
pub fn add_blocks(sorted: &mut Vec<i64>, values: &[i64])
    requires { AreBlocksOf values.now sorted.old.items }
    ensures { AreBlocksOf values.now sorted.new.items }
{
    let count = values.len().min(sorted.capacity()) / BLOCK;
    for k in sorted.len() / BLOCK..count {
        add_block(sorted, &values[BLOCK * k..BLOCK * k + BLOCK]);
    }
}

// Adds values at the end, in order, for which there is room.
fn add_block(sorted: &mut Vec<i64>, values: &[i64])
    requires { vec_len sorted.old + length values.now ≤ vec_capacity sorted.old }
    ensures added { IsAdded sorted.old.items values.now sorted.new.items }
    ensures capacity { vec_capacity sorted.old ≤ vec_capacity sorted.new }
{
    let start = sorted.len();
    append(sorted, values);
    sort_from(sorted, start);
}

// Adds values at the end, for which there is room.
pub fn append(list: &mut Vec<i64>, values: &[i64])
    requires { vec_len list.old + length values.now ≤ vec_capacity list.old }
    ensures items { list.new.items ≡ list.old.items ++ values.now }
    ensures capacity { vec_capacity list.old ≤ vec_capacity list.new }
{
    for x in values {
        list.push_reserved(*x);
    }
}

// Puts the values from an index on in order.
fn sort_from(list: &mut [i64], start: usize)
    requires { start ≤ length list.old }
    ensures { IsSortedFrom start list.old list.new }
{
    list[start..].sort_unstable();
}

// How many values are at most a number: a search in each block.
pub fn count_in_blocks(whole: &[i64], c: i64) -> usize
    requires blocks { AreBlocks whole.now }
    requires few { length whole.now ≤ 65_536 }
    ensures { result ≡ at_most c whole.now }
{
    let mut count = 0;
    for k in 0..whole.len() / BLOCK {
        count += count_in_order(&whole[BLOCK * k..BLOCK * k + BLOCK], c);
    }
    count
}

// How many values in order are at most a number.
fn count_in_order(values: &[i64], c: i64) -> usize
    requires { AreInOrder values.now }
    ensures { result ≡ at_most c values.now }
{
    values.partition_point(|x| *x <= c)
}

// The ends with the values of some blocks more: a look at the least and the greatest one of each.
pub fn with_blocks(ends: Ends, whole: &[i64]) -> Ends
    requires blocks { AreBlocks whole.now }
    requires small { AreSmall ends }
    requires all_small { All IsSmall whole.now }
    ensures { HaveTaken whole.now ends result }
{
    let mut wide = ends;
    for k in 0..whole.len() / BLOCK {
        let low = wide.with_value(whole[BLOCK * k]);
        wide = low.with_value(whole[BLOCK * k + (BLOCK - 1)]);
    }
    wide
}
