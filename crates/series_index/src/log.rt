//! The positions of a series, into which values are placed when the positions are asked for.
ghost use Rattle.std.specs.Prelude.{◌≡◌, ◌+◌, ◌≤◌, ◌||◌, List, [], length, not, nat_lt, drop, filter, OnOk, OnErr, IfOk, IfSome};
ghost use Rattle.segment_model.specs.{Segments.{Position, values_of}, Limits.WithinLimits, Edits.{inserted, removed, has_commit}};
ghost use Rattle.series_index.specs.Log.{observed, all_placed, is_of_step, MayBePlaced, HaveRoom};

use crate::NoMemory;
use crate::coming::Coming;
use point_list::{FrozenPoints, PointFault, Points};
use std::alloc::Global;
use std::marker::Model;

const MOST_POSITIONS: usize = 16_384;

/// The positions of a series. Values that come wait until the positions are asked for, and are then placed together, in
/// order of their commits.
///
/// Contracts see a list of positions, as if each value had been placed when it came.
#[derive(Drop)]
pub struct PointLog {
    placed: Points,
    coming: Vec<Coming>,
}

impl Model for PointLog {
    ghost use Rattle.std.specs.Prelude.{List};
    ghost use Rattle.segment_model.specs.Segments.{Position};
    ghost use Rattle.series_index.specs.Log.{all_placed, MayBePlaced};

    ghost Value = { List Position };

    ghost view = { λ l. all_placed l.coming.items l.placed };

    ghost invariant = { λ l. MayBePlaced l.coming.items l.placed };
}

impl PointLog {
    /// No positions. The value keeps its allocator.
    pub fn new(alloc: Global) -> PointLog
        ensures { result ≡ [] }
    {
        PointLog {
            placed: Points::new(alloc),
            coming: Vec::new(alloc),
        }
    }

    /// Says what the type keeps; does nothing.
    pub fn limits(&self)
        ensures { WithinLimits self.now }
    {
        let _ = &self.placed;
    }

    /// How many values there are. Constant time.
    pub fn count(&self) -> usize
        ensures { result ≡ length (values_of self.now) }
    {
        self.placed.count() + self.coming.len()
    }

    /// Whether a value may be put in at the commit: it has a position, or there is room for one more. Constant time where
    /// values wait for their places or there is room, else logarithmic.
    pub fn takes(&self, commit: u64) -> bool
        ensures { result ≡ (has_commit commit self.now || nat_lt (length self.now) 16_384) }
    {
        if !self.coming.is_empty() {
            return true;
        }
        self.placed.len() < MOST_POSITIONS || self.placed.has(commit)
    }

    /// Puts a value into its commit's position, as the last one, or into a new position in its place; changes nothing
    /// where there is no memory. Constant time, amortized; where there may be as many positions as are allowed, what
    /// waits is placed first.
    pub fn insert(&mut self, commit: u64, step: u64, value: i64) -> Result<(), NoMemory>
        requires { HaveRoom self.old commit step value }
        ensures ok { OnOk result
            (self.new ≡ inserted commit (record { step = step; value = value }) self.old) }
        ensures err { OnErr result (self.new ≡ self.old) }
    {
        let x = Coming {
            commit,
            step,
            value,
        };
        if self.placed.len() + self.coming.len() + 1 < MOST_POSITIONS {
            self.coming.push(x)?;
            return Ok(());
        }
        place_all(&mut self.placed, &mut self.coming)?;
        let mut near = usize::MAX;
        place(&mut self.placed, &mut near, x)?;
        Ok(())
    }

    /// Takes away all values of a step at a commit, and the position where none is left. Takes no memory of its own: what
    /// waits is placed first, as far as there is memory.
    pub fn remove(&mut self, commit: u64, step: u64)
        ensures { self.new ≡ removed commit step self.old }
    {
        let _ = place_all(&mut self.placed, &mut self.coming);
        self.placed.limits();
        self.placed.remove(commit, step);
        drop_step(&mut self.coming, commit, step);
    }

    // Places all values that wait. Changes nothing that is seen, whether there is memory or not. O(n log n) time for n
    // values that wait, but for their places among others.
    pub(crate) fn settle(&mut self) -> Result<(), NoMemory>
        ensures { self.new ≡ self.old }
    {
        place_all(&mut self.placed, &mut self.coming)
    }

    // The positions as they are, where none waits any more. Changes nothing that is seen.
    pub(crate) fn freeze(&mut self) -> Result<FrozenPoints, NoMemory>
        ensures points { IfOk result (λ points. points ≡ self.old) }
        ensures same { self.new ≡ self.old }
    {
        place_all(&mut self.placed, &mut self.coming)?;
        self.placed.freeze()
    }

    // The positions, where no value waits.
    pub(crate) fn settled(&self) -> Option<&Points>
        ensures { IfSome result (λ points. points.now ≡ self.now) }
    {
        if self.coming.is_empty() {
            Some(&self.placed)
        } else {
            None
        }
    }
}

// Places a value, for which there is room; changes nothing where there is no memory. `near` is where to look first.
fn place(placed: &mut Points, near: &mut usize, x: Coming) -> Result<(), NoMemory>
    requires { HaveRoom placed.old x.commit x.step x.value }
    ensures ok { OnOk result (placed.new ≡ inserted x.commit (observed x) placed.old) }
    ensures err { OnErr result (placed.new ≡ placed.old) }
{
    match placed.insert_near(near, x.commit, x.step, x.value) {
        Ok(()) => Ok(()),
        Err(PointFault::NoMemory) => Err(NoMemory),
        Err(PointFault::SamplesFull) | Err(PointFault::PositionsFull) => unreachable!(),
    }
}

// Places the first of some values, as many as there is memory for, and gives their count.
fn place_first(placed: &mut Points, coming: &[Coming]) -> usize
    requires { MayBePlaced coming.now placed.old }
    ensures same { all_placed (drop result coming.now) placed.new
        ≡ all_placed coming.now placed.old }
    ensures fewer { length placed.new ≤ length placed.old + result }
    ensures within { result ≤ length coming.now }
{
    let mut near = usize::MAX;
    for i in 0..coming.len() {
        placed.limits();
        if let Err(_) = place(placed, &mut near, coming[i]) {
            return i;
        }
    }
    coming.len()
}

// Places all values; where there is no memory, some of them wait on.
fn place_all(placed: &mut Points, coming: &mut Vec<Coming>) -> Result<(), NoMemory>
    requires { MayBePlaced coming.old.items placed.old }
    ensures same { all_placed coming.new.items placed.new ≡ all_placed coming.old.items placed.old }
    ensures may { MayBePlaced coming.new.items placed.new }
    ensures ok { OnOk result (coming.new.items ≡ []) }
{
    sort(coming)?;
    let count = place_first(placed, coming.as_slice());
    drop_first(coming, count);
    if coming.is_empty() {
        Ok(())
    } else {
        Err(NoMemory)
    }
}

// Puts them in order of their commits, those of one commit as they came.
fn sort(coming: &mut Vec<Coming>) -> Result<(), NoMemory>
    ensures same { (points : List Position) → all_placed coming.new.items points
        ≡ all_placed coming.old.items points }
    ensures len { length coming.new.items ≡ length coming.old.items }
{
    coming.sort_by_key(|x| x.commit)?;
    Ok(())
}

// Takes away the first of them; where those are all, gives their memory back.
fn drop_first(coming: &mut Vec<Coming>, count: usize)
    requires { count ≤ length coming.old.items }
    ensures { coming.new.items ≡ drop count coming.old.items }
{
    if count == coming.len() {
        *coming = Vec::new(*coming.allocator());
        return;
    }
    coming.drain(..count);
}

// Takes away the values of a step at a commit.
fn drop_step(coming: &mut Vec<Coming>, commit: u64, step: u64)
    ensures { coming.new.items ≡ filter (λ x. not (is_of_step commit step x)) coming.old.items }
{
    coming.retain(|x| !is_of_step(x, commit, step));
}

// Whether a value came by a step at a commit.
fn is_of_step(x: &Coming, commit: u64, step: u64) -> bool
    ensures { result ≡ is_of_step commit step x.now }
{
    x.commit == commit && x.step == step
}
