//! The list of positions: values put in and taken out.
ghost use Rattle.std.specs.{Prelude.{◌≡◌, ◌+◌, ◌*◌, ◌<◌, ◌≤◌, ◌↔◌, ℕ, List, [], length, OnOk, OnErr, IfOk, slice_index, Err, false, true, get_or, nat_lt, All}, List.Sorted.IsStrictlyIncreasing, Arc.arc_value};
ghost use Rattle.segment_model.specs.{Segments.{Position, segment, values_of}, Limits.{commits_of, HasValue, HasStepsInOrder, WithinLimits}, Edits.{inserted, removed, has_commit}};
ghost use Rattle.point_list.specs.{Places.MayCome, Searches.StandsAt, Blocks.IsFront};

use crate::NoMemory;
use crate::blocks::{Block, FULL};
use crate::fault::PointFault;
use crate::frozen::FrozenPoints;
use crate::positions::PositionList;
use crate::stored::StoredPosition;
use std::alloc::Global;
use std::marker::Model;
use std::sync::Arc;

const MOST_VALUES: usize = 65_536;

const MOST_POSITIONS: usize = 16_384;

/// The positions of a series: commits in rising order, each with its values and the steps that brought them.
///
/// Contracts see a list of positions. The type keeps the limits: at most 16,384 positions and 65,536 values of
/// magnitudes up to 10^16, no position without a value, rising commits, and in each position steps that don't fall.
#[derive(Drop)]
pub struct Points {
    alloc: Global,
    positions: PositionList,
    values: usize,
    // Full blocks of the first positions, which were given to others.
    front: Vec<Arc<Block>>,
}

impl Model for Points {
    ghost use Rattle.std.specs.{Prelude.{◌≡◌, List, length}, Arc.arc_value};
    ghost use Rattle.segment_model.specs.{Segments.{Position, values_of}, Limits.WithinLimits};
    ghost use Rattle.point_list.specs.Blocks.{IsFront};

    ghost Value = { List Position };

    ghost view = { λ p. p.positions };

    ghost invariant = { λ p. WithinLimits p.positions
        × (p.values ≡ length (values_of p.positions))
        × IsFront arc_value p.front.items p.positions };
}

impl Points {
    /// No positions. The value keeps its allocator.
    pub fn new(alloc: Global) -> Points
        ensures { result ≡ [] }
    {
        Points {
            alloc,
            positions: PositionList::new(alloc),
            values: 0,
            front: Vec::new(alloc),
        }
    }

    /// Equal positions of their own. Linear in the values.
    pub fn copy(&self, alloc: Global) -> Result<Points, NoMemory>
        ensures { IfOk result (λ made. made ≡ self.now) }
    {
        Ok(Points {
            alloc,
            positions: self.positions.copy(alloc)?,
            values: self.values,
            front: Vec::new(alloc),
        })
    }

    /// Says what the type keeps; does nothing.
    pub fn limits(&self)
        ensures { WithinLimits self.now }
    {
        let _ = &self.positions;
    }

    /// How many positions there are.
    pub fn len(&self) -> usize
        ensures { result ≡ length self.now }
    {
        self.positions.len()
    }

    /// How many values there are. Constant time.
    pub fn count(&self) -> usize
        ensures { result ≡ length (values_of self.now) }
    {
        self.values
    }

    /// Whether the commit has a position. Logarithmic time.
    pub fn has(&self, commit: u64) -> bool
        ensures { result ≡ has_commit commit self.now }
    {
        let place = place_of(&self.positions, commit);
        is_at(&self.positions, place, commit)
    }

    /// The commit of position i, from 0.
    pub fn commit(&self, i: usize) -> u64
        requires { i < length self.now }
        ensures { result ≡ slice_index (commits_of self.now) i }
    {
        let position = self.positions.at(i);
        position.commit()
    }

    /// The values of position i, from 0.
    pub fn values(&self, i: usize) -> &[i64]
        requires { i < length self.now }
        ensures { result.now ≡ segment self.now i (i + 1) }
    {
        let position = self.positions.at(i);
        position.values()
    }

    /// Puts a value into its commit's position, as the last one, or into a new position in its place.
    ///
    /// Changes nothing where it fails. `SamplesFull` comes exactly where there are 65,536 values, `PositionsFull` exactly
    /// where else the commit has no position and there are 16,384. Constant time, amortized, where no commit is greater;
    /// else logarithmic time, but for growing and for moving the positions on the shorter side of a new one.
    pub fn insert(&mut self, commit: u64, step: u64, value: i64) -> Result<(), PointFault>
        requires { MayCome self.old commit step value }
        ensures ok { OnOk result
            (self.new ≡ inserted commit (record { step = step; value = value }) self.old) }
        ensures err { OnErr result (self.new ≡ self.old) }
        ensures samples_full { result ≡ Err PointFault.SamplesFull
            ↔ (65_536 ≤ length (values_of self.old)) }
        ensures positions_full { result ≡ Err PointFault.PositionsFull
            ↔ ((length (values_of self.old) < 65_536) × (has_commit commit self.old ≡ false)
            × (16_384 ≤ length self.old)) }
    {
        self.insert_near(&mut usize::MAX, commit, step, value)
    }

    /// As [`insert`](Points::insert), by one who may know the place: `near` is where to look first, and becomes the place of
    /// the commit. It makes no difference to what is done, and `usize::MAX` looks nowhere. No search where the commit's
    /// position stands at `near`.
    pub fn insert_near(
        &mut self,
        near: &mut usize,
        commit: u64,
        step: u64,
        value: i64,
    ) -> Result<(), PointFault>
        requires { MayCome self.old commit step value }
        ensures ok { OnOk result
            (self.new ≡ inserted commit (record { step = step; value = value }) self.old) }
        ensures err { OnErr result (self.new ≡ self.old) }
        ensures samples_full { result ≡ Err PointFault.SamplesFull
            ↔ (65_536 ≤ length (values_of self.old)) }
        ensures positions_full { result ≡ Err PointFault.PositionsFull
            ↔ ((length (values_of self.old) < 65_536) × (has_commit commit self.old ≡ false)
            × (16_384 ≤ length self.old)) }
    {
        if self.values >= MOST_VALUES {
            return Err(PointFault::SamplesFull);
        }
        let place = place_near(&self.positions, *near, commit);
        *near = place;
        let there = is_at(&self.positions, place, commit);
        if !there && self.positions.len() >= MOST_POSITIONS {
            return Err(PointFault::PositionsFull);
        }
        forget(&mut self.front, &self.positions, commit);
        let Ok(()) = put_in(self.alloc, &mut self.positions, place, commit, step, value) else {
            return Err(PointFault::NoMemory);
        };
        self.values += 1;
        Ok(())
    }

    /// Takes away all values of a step at a commit, and the position where none is left. Takes no memory.
    ///
    /// Logarithmic time, but for moving the position's values of later steps, and the positions on the shorter side of one
    /// that goes.
    pub fn remove(&mut self, commit: u64, step: u64)
        ensures { self.new ≡ removed commit step self.old }
    {
        forget(&mut self.front, &self.positions, commit);
        let gone = take_out(&mut self.positions, commit, step);
        self.values -= gone;
    }

    /// The positions as they are, which don't change with these any more. Changes nothing that is seen.
    ///
    /// Linear in what came or went since it was called before, and in what stands behind the first of that; and one step
    /// for 128 positions.
    pub fn freeze(&mut self) -> Result<FrozenPoints, NoMemory>
        ensures same { self.new ≡ self.old }
        ensures made { IfOk result (λ made. made ≡ self.old) }
    {
        fill(self.alloc, &mut self.front, &self.positions)?;
        FrozenPoints::of(self.alloc, &self.front, &self.positions)
    }
}

// Keeps the blocks that stand in front of a commit.
fn forget(front: &mut Vec<Arc<Block>>, positions: &PositionList, commit: u64)
    requires front { IsFront arc_value front.old.items positions.now }
    requires limits { WithinLimits positions.now }
    ensures front { IsFront arc_value front.new.items positions.now }
    ensures below { (i : ℕ) (d : Position) → i < 128 * length front.new.items
        → (get_or positions.now i d).commit < commit }
{
    let kept = blocks_before(positions, front.len(), commit);
    front.truncate(kept);
}

// How many of some full blocks stand in front of a commit.
fn blocks_before(positions: &PositionList, most: usize, commit: u64) -> usize
    requires within { 128 * most ≤ length positions.now }
    requires limits { WithinLimits positions.now }
    ensures within { result ≤ most }
    ensures below { (i : ℕ) (d : Position) → i < 128 * result
        → (get_or positions.now i d).commit < commit }
{
    let mut kept = most;
    while kept > 0 {
        let position = positions.at(FULL * kept - 1);
        if position.commit() < commit {
            return kept;
        }
        kept -= 1;
    }
    0
}

// Makes full blocks of all first positions that fill them. Some of them are there where there is no memory.
fn fill(
    alloc: Global,
    front: &mut Vec<Arc<Block>>,
    positions: &PositionList,
) -> Result<(), NoMemory>
    requires { IsFront arc_value front.old.items positions.now }
    ensures { IsFront arc_value front.new.items positions.now }
{
    while positions.len() - FULL * front.len() >= FULL {
        let from = FULL * front.len();
        let block = Block::of(alloc, positions, from, from + FULL)?;
        let Ok(owned) = Arc::new(alloc, block) else {
            return Err(NoMemory);
        };
        front.push(owned)?;
    }
    Ok(())
}

// Puts a value into the commit's position, or into a new one, at its place; changes nothing where there is no memory.
fn put_in(
    alloc: Global,
    positions: &mut PositionList,
    place: usize,
    commit: u64,
    step: u64,
    value: i64,
) -> Result<(), NoMemory>
    requires rising { IsStrictlyIncreasing (commits_of positions.old) }
    requires place { StandsAt commit positions.old place }
    requires within { place ≤ length positions.old }
    requires few { has_commit commit positions.old ≡ false → length positions.old < 16_384 }
    ensures ok { OnOk result (positions.new
        ≡ inserted commit (record { step = step; value = value }) positions.old) }
    ensures err { OnErr result (positions.new ≡ positions.old) }
{
    if is_at(positions, place, commit) {
        return positions.push_at(place, step, value);
    }
    let position = StoredPosition::of(alloc, commit, step, value);
    positions.insert(place, position)
}

// Takes the values of a step out of the commit's position, and the position where none is left; gives their count.
fn take_out(positions: &mut PositionList, commit: u64, step: u64) -> usize
    requires rising { IsStrictlyIncreasing (commits_of positions.old) }
    requires filled { All HasValue positions.old }
    requires in_order { All HasStepsInOrder positions.old }
    ensures left { positions.new ≡ removed commit step positions.old }
    ensures gone { length (values_of positions.new) + result
        ≡ length (values_of positions.old) }
{
    let place = place_of(positions, commit);
    if !is_at(positions, place, commit) {
        return 0;
    }
    let gone = positions.take_step_at(place, step);
    if positions.at(place).len() == 0 {
        positions.remove(place);
    }
    gone
}

// The first place whose commit is not below this one. Looks first whether it is this one.
fn place_near(positions: &PositionList, near: usize, commit: u64) -> usize
    requires { IsStrictlyIncreasing (commits_of positions.now) }
    ensures stands { StandsAt commit positions.now result }
    ensures within { result ≤ length positions.now }
{
    if is_first(positions, near, commit) {
        near
    } else {
        place_of(positions, commit)
    }
}

// Whether a position stands at a place, and the place is the first whose commit is not below this one.
fn is_first(positions: &PositionList, place: usize, commit: u64) -> bool
    requires { IsStrictlyIncreasing (commits_of positions.now) }
    ensures stands { result ≡ true → StandsAt commit positions.now place }
    ensures within { result ≡ true → place ≤ length positions.now }
{
    if place >= positions.len() {
        return false;
    }
    let position = positions.at(place);
    if position.commit() < commit {
        return false;
    }
    if place == 0 {
        return true;
    }
    let before = positions.at(place - 1);
    before.commit() < commit
}

// The first place whose commit is not below this one.
fn place_of(positions: &PositionList, commit: u64) -> usize
    requires { IsStrictlyIncreasing (commits_of positions.now) }
    ensures stands { StandsAt commit positions.now result }
    ensures within { result ≤ length positions.now }
{
    let mut low = from_the_end(positions, commit);
    let mut high = to_the_front(positions, commit);
    while low < high {
        let middle = low + (high - low) / 2;
        let position = positions.at(middle);
        if position.commit() < commit {
            low = middle + 1;
        } else {
            high = middle;
        }
    }
    low
}

// A place before which each commit is below this one: the last position's or the end where this one is not below the last
// commit, so that values in order need no search; else the first.
fn from_the_end(positions: &PositionList, commit: u64) -> usize
    requires { IsStrictlyIncreasing (commits_of positions.now) }
    ensures within { result ≤ length positions.now }
    ensures below { (k : ℕ) (d : Position) → k < result
        → (get_or positions.now k d).commit < commit }
{
    let count = positions.len();
    if count == 0 {
        return 0;
    }
    let last = count - 1;
    let position = positions.at(last);
    if position.commit() > commit {
        return 0;
    }
    if position.commit() == commit {
        return last;
    }
    last + 1
}

// A place from which on no commit is below this one: the first where this one is not above the first commit, so that
// values that come backwards need no search; else the end.
fn to_the_front(positions: &PositionList, commit: u64) -> usize
    requires { IsStrictlyIncreasing (commits_of positions.now) }
    ensures within { result ≤ length positions.now }
    ensures rest { (k : ℕ) (d : Position) → result ≤ k → k < length positions.now
        → nat_lt (get_or positions.now k d).commit commit ≡ false }
{
    let count = positions.len();
    if count == 0 {
        return 0;
    }
    let position = positions.at(0);
    if commit <= position.commit() {
        0
    } else {
        count
    }
}

// Whether the commit's position stands at its place.
fn is_at(positions: &PositionList, place: usize, commit: u64) -> bool
    requires rising { IsStrictlyIncreasing (commits_of positions.now) }
    requires place { StandsAt commit positions.now place }
    requires within { place ≤ length positions.now }
    ensures has { result ≡ has_commit commit positions.now }
    ensures there { result ≡ true → place < length positions.now }
    ensures same { result ≡ true → (d : Position) → (get_or positions.now place d).commit ≡ commit }
{
    if place == positions.len() {
        return false;
    }
    let position = positions.at(place);
    position.commit() == commit
}
