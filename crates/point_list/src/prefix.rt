//! How far two lists of positions agree.
ghost use Rattle.std.specs.{Prelude.{◌≡◌, ◌+◌, ◌*◌, ◌≤◌, List, ◌++◌, drop, length}, Arc.arc_value};
ghost use Rattle.segment_model.specs.Segments.{Position};
ghost use Rattle.point_list.specs.{Blocks.{AreFull, joined}, Places.common};

use crate::blocks::{Block, FULL};
use crate::frozen::{FrozenPoints, Row};
use std::sync::Arc;

/// The greatest number of first positions with equal commits and values, whatever steps brought these.
///
/// Goes over commits, counts and values block by block, and position by position in the first block that differs. Takes no
/// memory.
pub fn common_prefix(a: &FrozenPoints, b: &FrozenPoints) -> usize
    ensures { result ≡ common a.now b.now }
{
    common_rows(a.row(), b.row())
}

fn common_rows(a: &Row, b: &Row) -> usize
    ensures { result ≡ common a.now b.now }
{
    let mut k = FULL * same_blocks(&a.full, &b.full);
    while k < a.len() && k < b.len() {
        let one = a.at(k);
        let other = b.at(k);
        if !one.is_same(other) {
            return k;
        }
        k += 1;
    }
    k
}

// How many first blocks are the same, by commits and values.
fn same_blocks(a: &[Arc<Block>], b: &[Arc<Block>]) -> usize
    ensures common { (one other : List Position)
        → AreFull arc_value a.now → AreFull arc_value b.now
        → common (joined arc_value a.now ++ one) (joined arc_value b.now ++ other)
        ≡ 128 * result + common (drop (128 * result) (joined arc_value a.now ++ one))
        (drop (128 * result) (joined arc_value b.now ++ other)) }
    ensures first { result ≤ length a.now }
    ensures second { result ≤ length b.now }
{
    let mut k = 0;
    while k < a.len() && k < b.len() {
        if !a[k].is_same(&b[k]) {
            return k;
        }
        k += 1;
    }
    k
}
