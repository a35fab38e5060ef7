//! One position, as it is stored.
ghost use Rattle.std.specs.{Prelude.{◌≡◌, ◌+◌, ◌-◌, ℕ, ℤ, [], ◌∷◌, ◌++◌, length, OnOk, OnErr, IfOk, filter, take, drop, ◌≤◌, ◌<◌, slice_index_or}, Int.{w64, cast_unsigned}, List.Sorted.IsNonDecreasingBy};
ghost use Rattle.segment_model.specs.{Segments.position_values, Limits.HasStepsInOrder, Edits.{with_value, position_of, by_another, same_position}};
ghost use Rattle.point_list.specs.Stored.{HasHalves, AreInOrder, as_steps, samples_of, samples_before, samples_in, without};

use crate::NoMemory;
use smallvec::SmallVec;
use std::alloc::Global;
use std::marker::Model;

// One position: its commit, and its values with the steps that brought them. One value takes no memory of its own, more
// take one block.
#[derive(Drop)]
pub struct StoredPosition {
    commit: u64,
    // Of each half of the cells, those from place `first` on and before place `end` are in use.
    first: u32,
    end: u32,
    // Cells for values, and after them as many for their steps, as signed numbers of the same bits.
    cells: SmallVec<i64, 2>,
}

impl Model for StoredPosition {
    ghost use Rattle.segment_model.specs.Segments.{Position};
    ghost use Rattle.point_list.specs.Stored.{HasHalves, samples_in};

    ghost Value = { Position };

    ghost view = { λ p. record { commit = p.commit; samples = samples_in p.first p.end p.cells.items } };

    ghost invariant = { λ p. HasHalves p.first p.end p.cells.items };
}

impl StoredPosition {
    // The position of one value.
    pub fn of(alloc: Global, commit: u64, step: u64, value: i64) -> StoredPosition
        ensures { result ≡ position_of commit (record { step = step; value = value }) }
    {
        StoredPosition {
            commit,
            first: 0,
            end: 1,
            cells: SmallVec::from_buf(alloc, [value, step.cast_signed()]),
        }
    }

    // Adds a value at the end; changes nothing where there is no memory. Constant time, amortized.
    pub fn push(&mut self, step: u64, value: i64) -> Result<(), NoMemory>
        ensures ok { OnOk result
            (self.new ≡ with_value (record { step = step; value = value }) self.old) }
        ensures err { OnErr result (self.new ≡ self.old) }
    {
        if self.end == u32::MAX {
            return Err(NoMemory);
        }
        let end = self.end as usize;
        make_room(&mut self.cells, end)?;
        put_after(self.cells.as_mut_slice(), end, step.cast_signed(), value);
        self.end += 1;
        Ok(())
    }

    // Takes away the values of a step, and gives their count. The steps don't fall. Logarithmic time in the values, but for
    // moving those of earlier or of later steps, whichever are fewer; takes no memory.
    pub fn take_step(&mut self, step: u64) -> usize
        requires { HasStepsInOrder self.old }
        ensures left { self.new ≡ record {
          commit = self.old.commit;
          samples = filter (by_another step) self.old.samples;
        } }
        ensures gone { length self.new.samples + result ≡ length self.old.samples }
    {
        let before = self.len();
        let (first, end) = keep_others(
            step,
            self.cells.as_mut_slice(),
            self.first as usize,
            self.end as usize,
        );
        self.first = first as u32;
        self.end = end as u32;
        before - (end - first)
    }

    pub fn commit(&self) -> u64
        ensures { result ≡ self.now.commit }
    {
        self.commit
    }

    pub fn len(&self) -> usize
        ensures { result ≡ length self.now.samples }
    {
        (self.end - self.first) as usize
    }

    pub fn values(&self) -> &[i64]
        ensures { result.now ≡ position_values self.now }
    {
        &self.cells.as_slice()[self.first as usize..self.end as usize]
    }

    // Whether both have one commit and equal values.
    pub fn is_same(&self, other: &StoredPosition) -> bool
        ensures { result ≡ same_position self.now other.now }
    {
        self.commit == other.commit && self.values() == other.values()
    }

    pub fn copy(&self, alloc: Global) -> Result<StoredPosition, NoMemory>
        ensures { IfOk result (λ made. made ≡ self.now) }
    {
        Ok(StoredPosition {
            commit: self.commit,
            first: self.first,
            end: self.end,
            cells: copy_of(alloc, self.cells.as_slice())?,
        })
    }
}

// Equal cells of their own. Two, which is what most positions have, are copied without a call.
fn copy_of(alloc: Global, cells: &[i64]) -> Result<SmallVec<i64, 2>, NoMemory>
    ensures { IfOk result (λ made. made.items ≡ cells.now) }
{
    if cells.len() == 2 {
        return Ok(SmallVec::from_buf(alloc, [cells[0], cells[1]]));
    }
    SmallVec::from_slice(alloc, cells)
}

// Makes both halves of the cells twice as long where all are in use; what the new cells hold means nothing.
fn make_room(cells: &mut SmallVec<i64, 2>, end: usize) -> Result<(), NoMemory>
    requires { HasHalves 0 end cells.old.items }
    ensures halves { OnOk result (HasHalves 0 (end + 1) cells.new.items) }
    ensures same { OnOk result
        (samples_before end cells.new.items ≡ samples_before end cells.old.items) }
    ensures err { OnErr result (cells.new.items ≡ cells.old.items) }
{
    let half = cells.len() / 2;
    if end < half {
        return Ok(());
    }
    let (values, steps) = cells.as_slice().split_at(half);
    let mut wider = SmallVec::with_capacity(*cells.allocator(), 4 * half)?;
    wider.extend_from_slice(values)?;
    wider.extend_from_slice(values)?;
    wider.extend_from_slice(steps)?;
    wider.extend_from_slice(steps)?;
    *cells = wider;
    Ok(())
}

// Puts a value after the values in use, and its step after theirs.
fn put_after(cells: &mut [i64], end: usize, step: i64, value: i64)
    requires { HasHalves 0 (end + 1) cells.old }
    ensures put { samples_before (end + 1) cells.new ≡ samples_before end cells.old
        ++ record { step = cast_unsigned w64 step; value = value } ∷ [] }
    ensures length { length cells.new ≡ length cells.old }
{
    let (values, steps) = cells.split_at_mut(cells.len() / 2);
    steps[end] = step;
    values[end] = value;
}

// Closes the gap that the values of a step leave in both halves, and gives the places where the others begin and end.
fn keep_others(step: u64, cells: &mut [i64], first: usize, end: usize) -> (usize, usize)
    requires halves { HasHalves first end cells.old }
    requires in_order { AreInOrder (samples_in first end cells.old) }
    ensures kept { samples_in result.0 result.1 cells.new
        ≡ filter (by_another step) (samples_in first end cells.old) }
    ensures first { first ≤ result.0 }
    ensures order { result.0 ≤ result.1 }
    ensures within { result.1 ≤ end }
    ensures length { length cells.new ≡ length cells.old }
{
    let (values, steps) = cells.split_at_mut(cells.len() / 2);
    keep_apart(step, steps, values, first, end)
}

// Closes the gap that a step and its values leave in both, and gives the places where the others begin and end.
fn keep_apart(
    step: u64,
    steps: &mut [i64],
    values: &mut [i64],
    first: usize,
    end: usize,
) -> (usize, usize)
    requires order { first ≤ end }
    requires steps { end ≤ length steps.old }
    requires values { end ≤ length values.old }
    requires in_order { AreInOrder (samples_of
        (as_steps (drop first (take end steps.old))) (drop first (take end values.old))) }
    ensures kept { samples_of (as_steps (drop result.0 (take result.1 steps.new)))
        (drop result.0 (take result.1 values.new))
        ≡ filter (by_another step) (samples_of
        (as_steps (drop first (take end steps.old))) (drop first (take end values.old))) }
    ensures first { first ≤ result.0 }
    ensures order { result.0 ≤ result.1 }
    ensures within { result.1 ≤ end }
    ensures steps { length steps.new ≡ length steps.old }
    ensures values { length values.new ≡ length values.old }
{
    let low = count_below(&steps[first..end], step);
    let high = count_up_to(&steps[first..end], step);
    close_gap(steps, first, end, low, high);
    close_gap(values, first, end, low, high);
    if low < end - first - high {
        (first + (high - low), end)
    } else {
        (first, end - (high - low))
    }
}

// How many steps are below this one, where they don't fall. Logarithmic time.
fn count_below(steps: &[i64], step: u64) -> usize
    requires { IsNonDecreasingBy (cast_unsigned w64) steps.now }
    ensures within { result ≤ length steps.now }
    ensures below { (k : ℕ) (d : ℤ) → k < result
        → cast_unsigned w64 (slice_index_or steps.now k d) < step }
    ensures rest { (k : ℕ) (d : ℤ) → result ≤ k → k < length steps.now
        → step ≤ cast_unsigned w64 (slice_index_or steps.now k d) }
{
    if step == 0 {
        return 0;
    }
    count_up_to(steps, step - 1)
}

// How many steps are not above this one, where they don't fall. Logarithmic time.
fn count_up_to(steps: &[i64], step: u64) -> usize
    requires { IsNonDecreasingBy (cast_unsigned w64) steps.now }
    ensures within { result ≤ length steps.now }
    ensures up_to { (k : ℕ) (d : ℤ) → k < result
        → cast_unsigned w64 (slice_index_or steps.now k d) ≤ step }
    ensures rest { (k : ℕ) (d : ℤ) → result ≤ k → k < length steps.now
        → step < cast_unsigned w64 (slice_index_or steps.now k d) }
{
    steps.partition_point(|s| s.cast_unsigned() <= step)
}

// Closes a gap in the cells in use, from a place on and before a higher one among them: moves those in front of it up where
// they are fewer, else those after it down.
fn close_gap(cells: &mut [i64], first: usize, end: usize, low: usize, high: usize)
    requires order { low ≤ high }
    requires high { first + high ≤ end }
    requires end { end ≤ length cells.old }
    ensures up { low < end - first - high → drop (first + (high - low)) (take end cells.new)
        ≡ without low high (drop first (take end cells.old)) }
    ensures down { end - first - high ≤ low → drop first (take (end - (high - low)) cells.new)
        ≡ without low high (drop first (take end cells.old)) }
    ensures length { length cells.new ≡ length cells.old }
{
    if low < end - first - high {
        cells.copy_within(first..first + low, first + (high - low));
    } else {
        cells.copy_within(first + high..end, first + low);
    }
}
