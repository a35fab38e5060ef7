//! Positions in blocks that don't change any more.
ghost use Rattle.std.specs.Prelude.{◌≡◌, ◌-◌, ◌<◌, ◌≤◌, length, take, drop, true, IfOk, slice_index_or};
ghost use Rattle.segment_model.specs.Segments.{Position};
ghost use Rattle.point_list.specs.Places.{common};

use crate::NoMemory;
use crate::positions::PositionList;
use crate::stored::StoredPosition;
use std::alloc::Global;
use std::marker::Model;

// How many positions a block has where it is full.
pub const FULL: usize = 128;

// A run of positions that doesn't change any more. Their commits, counts and values stand in a row too, so that two blocks
// are compared fast.
#[derive(Drop)]
pub struct Block {
    positions: Vec<StoredPosition>,
    // Of each position its commit, and how many values it has.
    heads: Vec<u64>,
    values: Vec<i64>,
}

impl Model for Block {
    ghost use Rattle.std.specs.Prelude.{List};
    ghost use Rattle.segment_model.specs.Segments.{Position};
    ghost use Rattle.point_list.specs.Blocks.{AreTold};

    ghost Value = { List Position };

    ghost view = { λ b. b.positions.items };

    ghost invariant = { λ b. AreTold b.positions.items b.heads.items b.values.items };
}

impl Block {
    // The positions of a list from place `from` on, before place `to`. Linear in their values.
    pub fn of(alloc: Global, list: &PositionList, from: usize, to: usize) -> Result<Block, NoMemory>
        requires rising { from ≤ to }
        requires within { to ≤ length list.now }
        ensures { IfOk result (λ made. made ≡ take (to - from) (drop from list.now)) }
    {
        let mut positions = Vec::with_capacity(alloc, to - from)?;
        let mut heads = Vec::with_capacity(alloc, 2 * (to - from))?;
        let mut values = Vec::with_capacity(alloc, to - from)?;
        for i in from..to {
            let position = list.at(i);
            heads.push(position.commit())?;
            heads.push(position.len() as u64)?;
            values.extend_from_slice(position.values())?;
            positions.push(position.copy(alloc)?)?;
        }
        Ok(Block {
            positions,
            heads,
            values,
        })
    }

    pub fn len(&self) -> usize
        ensures { result ≡ length self.now }
    {
        self.positions.len()
    }

    // Position i, from 0.
    pub fn at(&self, i: usize) -> &StoredPosition
        requires { i < length self.now }
        ensures { (d : Position) → result.now ≡ slice_index_or self.now i d }
    {
        &self.positions[i]
    }

    // Whether both have equal positions, by commits and values.
    pub fn is_same(&self, other: &Block) -> bool
        ensures { result ≡ true → common self.now other.now ≡ length self.now }
    {
        self.heads.as_slice() == other.heads.as_slice()
            && self.values.as_slice() == other.values.as_slice()
    }
}
