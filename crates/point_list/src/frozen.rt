//! Positions that don't change any more, with several owners.
ghost use Rattle.std.specs.{Prelude.{◌≡◌, ◌+◌, ◌<◌, [], length, map, IfOk, slice_index, slice_index_or}, Arc.arc_value};
ghost use Rattle.segment_model.specs.{Segments.{Position, segment}, Limits.{WithinLimits, commits_of}};
ghost use Rattle.point_list.specs.Blocks.{IsFront};

use crate::NoMemory;
use crate::blocks::{Block, FULL};
use crate::points::Points;
use crate::positions::PositionList;
use crate::stored::StoredPosition;
use std::alloc::Global;
use std::marker::Model;
use std::sync::Arc;

// Full blocks, which other such lists may have too, and what stands behind them.
#[derive(Drop)]
pub struct Row {
    pub full: Vec<Arc<Block>>,
    pub last: Block,
}

impl Model for Row {
    ghost use Rattle.std.specs.{Prelude.{◌≤◌, List, ◌++◌, length}, Arc.arc_value};
    ghost use Rattle.segment_model.specs.Segments.{Position};
    ghost use Rattle.point_list.specs.Blocks.{AreFull, joined};

    ghost Value = { List Position };

    ghost view = { λ r. joined arc_value r.full.items ++ r.last };

    ghost invariant = { λ r. AreFull arc_value r.full.items
        × (length (joined arc_value r.full.items ++ r.last) ≤ 16_384) };
}

impl Row {
    pub fn len(&self) -> usize
        ensures { result ≡ length self.now }
    {
        FULL * self.full.len() + self.last.len()
    }

    // Position i, from 0.
    pub fn at(&self, i: usize) -> &StoredPosition
        requires { i < length self.now }
        ensures { (d : Position) → result.now ≡ slice_index_or self.now i d }
    {
        let block = i / FULL;
        if block < self.full.len() {
            self.full[block].at(i % FULL)
        } else {
            self.last.at(i - FULL * self.full.len())
        }
    }
}

// One owner more of each block.
fn owners(alloc: Global, blocks: &[Arc<Block>]) -> Result<Vec<Arc<Block>>, NoMemory>
    ensures { IfOk result (λ made. map arc_value made.items ≡ map arc_value blocks.now) }
{
    let mut made = Vec::with_capacity(alloc, blocks.len())?;
    for block in blocks {
        made.push(block.clone()?)?;
    }
    Ok(made)
}

/// Positions that don't change any more, and may have several owners, in any threads. Contracts see the list of positions,
/// which keeps the limits of [`Points`](crate::Points).
#[derive(Drop)]
pub struct FrozenPoints {
    owned: Arc<Row>,
}

impl Model for FrozenPoints {
    ghost use Rattle.std.specs.{Prelude.List, Arc.arc_value};
    ghost use Rattle.segment_model.specs.{Segments.Position, Limits.WithinLimits};

    ghost Value = { List Position };

    ghost view = { λ s. arc_value s.owned };

    ghost invariant = { λ s. WithinLimits (arc_value s.owned) };
}

impl FrozenPoints {
    /// No positions.
    pub fn none(alloc: Global) -> Result<FrozenPoints, NoMemory>
        ensures { IfOk result (λ made. made ≡ []) }
    {
        let mut points = Points::new(alloc);
        points.freeze()
    }

    // The positions of a list, of which some first blocks are there. Linear in the blocks, and in what stands behind them.
    pub(crate) fn of(
        alloc: Global,
        front: &[Arc<Block>],
        list: &PositionList,
    ) -> Result<FrozenPoints, NoMemory>
        requires front { IsFront arc_value front.now list.now }
        requires limits { WithinLimits list.now }
        ensures { IfOk result (λ made. made ≡ list.now) }
    {
        let full = owners(alloc, front)?;
        let last = Block::of(alloc, list, FULL * front.len(), list.len())?;
        let Ok(owned) = Arc::new(alloc, Row { full, last }) else {
            return Err(NoMemory);
        };
        Ok(FrozenPoints { owned })
    }

    /// One owner more of the same positions. Takes constant time and no memory: `NoMemory` comes only where the owners
    /// can't be counted any more.
    pub fn share(&self) -> Result<FrozenPoints, NoMemory>
        ensures { IfOk result (λ made. made ≡ self.now) }
    {
        Ok(FrozenPoints {
            owned: self.owned.clone()?,
        })
    }

    /// Says what the type keeps; does nothing.
    pub fn limits(&self)
        ensures { WithinLimits self.now }
    {
        let _ = &self.owned;
    }

    /// How many positions there are.
    pub fn len(&self) -> usize
        ensures { result ≡ length self.now }
    {
        self.owned.len()
    }

    /// The commit of position i, from 0.
    pub fn commit(&self, i: usize) -> u64
        requires { i < length self.now }
        ensures { result ≡ slice_index (commits_of self.now) i }
    {
        let position = self.owned.at(i);
        position.commit()
    }

    /// The values of position i, from 0.
    pub fn values(&self, i: usize) -> &[i64]
        requires { i < length self.now }
        ensures { result.now ≡ segment self.now i (i + 1) }
    {
        let position = self.owned.at(i);
        position.values()
    }

    // The positions, as they stand in their blocks.
    pub(crate) fn row(&self) -> &Row
        ensures { result.now ≡ self.now }
    {
        &self.owned
    }
}
