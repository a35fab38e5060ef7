//! The values of a segment, of which the whole blocks stand in order.
ghost use Rattle.std.specs.Prelude.{◌<◌, ◌≤◌, ◌+◌, length, slice_range};
ghost use Rattle.absolute_cost.specs.Blocks.{AreBlocks, AreBlocksOf, HaveSameSums, all_of};

use crate::blocks::BLOCK;

// The values of a segment: those before its whole blocks, these in order, and those behind.
#[derive(Clone, Copy, Drop)]
pub struct Pieces<'a> {
    pub head: &'a [i64],
    pub whole: &'a [i64],
    pub tail: &'a [i64],
}

// The values from one index to another, of which the blocks are known in order. Constant time.
pub fn cut<'a>(values: &'a [i64], sorted: &'a [i64], from: usize, to: usize) -> Pieces<'a>
    requires sorted { AreBlocksOf values.now sorted.now }
    requires rising { from ≤ to }
    requires inside { to ≤ length values.now }
    ensures blocks { AreBlocks result.whole.now }
    ensures same { HaveSameSums (slice_range values.now from to)
        (all_of result.head.now result.whole.now result.tail.now) }
{
    let first = (from + (BLOCK - 1)) / BLOCK;
    let last = to.min(sorted.len()) / BLOCK;
    if first >= last {
        return Pieces {
            head: &values[from..to],
            whole: &sorted[..0],
            tail: &values[to..to],
        };
    }
    Pieces {
        head: &values[from..first * BLOCK],
        whole: &sorted[first * BLOCK..last * BLOCK],
        tail: &values[last * BLOCK..to],
    }
}
