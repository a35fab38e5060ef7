//! The positions in order, kept in the order in which they came.
ghost use Rattle.std.specs.Prelude.{◌≡◌, ◌+◌, ◌<◌, ◌≤◌, [], length, map, OnOk, OnErr, IfOk, slice_index_or, slice_set, filter, insert, remove, All};
ghost use Rattle.segment_model.specs.{Segments.Position, Limits.HasStepsInOrder, Edits.{with_value, by_another}};
ghost use Rattle.point_list.specs.Slots.{renamed};

use crate::NoMemory;
use crate::stored::StoredPosition;
use std::alloc::Global;
use std::collections::VecDeque;
use std::marker::Model;

// A list of positions. Each stands in a slot, and beside the slots there is a list of them in order, so that a position that
// comes or goes moves two bytes for each behind it, or for each before it where these are fewer.
#[derive(Drop)]
pub struct PositionList {
    slots: Vec<StoredPosition>,
    order: VecDeque<u16>,
}

impl Model for PositionList {
    ghost use Rattle.std.specs.Prelude.{List};
    ghost use Rattle.segment_model.specs.Segments.{Position};
    ghost use Rattle.point_list.specs.Slots.{in_order, IsOrder};

    ghost Value = { List Position };

    ghost view = { λ l. in_order l.slots.items l.order.items };

    ghost invariant = { λ l. IsOrder l.slots.items l.order.items };
}

impl PositionList {
    pub fn new(alloc: Global) -> PositionList
        ensures { result ≡ [] }
    {
        PositionList {
            slots: Vec::new(alloc),
            order: VecDeque::new(alloc),
        }
    }

    pub fn copy(&self, alloc: Global) -> Result<PositionList, NoMemory>
        ensures { IfOk result (λ made. made ≡ self.now) }
    {
        Ok(PositionList {
            slots: copies(alloc, &self.slots)?,
            order: self.order.clone()?,
        })
    }

    pub fn len(&self) -> usize
        ensures { result ≡ length self.now }
    {
        self.order.len()
    }

    // Position i, from 0.
    pub fn at(&self, i: usize) -> &StoredPosition
        requires { i < length self.now }
        ensures { (d : Position) → result.now ≡ slice_index_or self.now i d }
    {
        let slot = usize::from(self.order[i]);
        &self.slots[slot]
    }

    // Puts a position in at a place; changes nothing where there is no memory.
    pub fn insert(&mut self, place: usize, position: StoredPosition) -> Result<(), NoMemory>
        requires within { place ≤ length self.old }
        requires few { length self.old < 16_384 }
        ensures ok { OnOk result (self.new ≡ insert self.old place position) }
        ensures err { OnErr result (self.new ≡ self.old) }
    {
        self.slots.reserve(1)?;
        let slot = self.slots.len() as u16;
        self.order.insert(place, slot)?;
        self.slots.push_reserved(position);
        Ok(())
    }

    // Adds a value to the position at a place, as its last one; changes nothing where there is no memory.
    pub fn push_at(&mut self, place: usize, step: u64, value: i64) -> Result<(), NoMemory>
        requires { place < length self.old }
        ensures ok { (d : Position) → OnOk result (self.new ≡ slice_set self.old place
            (with_value (record { step = step; value = value })
            (slice_index_or self.old place d))) }
        ensures err { OnErr result (self.new ≡ self.old) }
    {
        let slot = usize::from(self.order[place]);
        let position = &mut self.slots[slot];
        position.push(step, value)
    }

    // Takes the values of a step out of the position at a place, which may be left with none; gives their count.
    pub fn take_step_at(&mut self, place: usize, step: u64) -> usize
        requires place { place < length self.old }
        requires in_order { All HasStepsInOrder self.old }
        ensures left { (d : Position) → self.new ≡ slice_set self.old place (record {
          commit = (slice_index_or self.old place d).commit;
          samples = filter (by_another step) (slice_index_or self.old place d).samples;
        }) }
        ensures gone { (d : Position)
            → length (filter (by_another step) (slice_index_or self.old place d).samples) + result
            ≡ length (slice_index_or self.old place d).samples }
    {
        let slot = usize::from(self.order[place]);
        let position = &mut self.slots[slot];
        position.take_step(step)
    }

    // Takes the position at a place away. The last slot's position moves into its slot.
    pub fn remove(&mut self, place: usize)
        requires { place < length self.old }
        ensures { self.new ≡ remove self.old place }
    {
        let last = (self.slots.len() - 1) as u16;
        let Some(slot) = self.order.remove(place) else {
            unreachable!();
        };
        let _ = self.slots.swap_remove(usize::from(slot));
        rename(self.order.make_contiguous(), last, slot);
    }
}

// Equal positions of their own, in the same slots.
fn copies(alloc: Global, slots: &[StoredPosition]) -> Result<Vec<StoredPosition>, NoMemory>
    ensures { IfOk result (λ made. made.items ≡ slots.now) }
{
    let mut made = Vec::with_capacity(alloc, slots.len())?;
    for slot in slots {
        made.push(slot.copy(alloc)?)?;
    }
    Ok(made)
}

// Writes one slot for another, wherever that stands.
fn rename(order: &mut [u16], from: u16, to: u16)
    ensures { order.new ≡ map (renamed from to) order.old }
{
    for slot in order.iter_mut() {
        *slot = name_of(*slot, from, to);
    }
}

// The name of a slot, where one gets a new name.
fn name_of(slot: u16, from: u16, to: u16) -> u16
    ensures { result ≡ renamed from to slot }
{
    if slot == from { to } else { slot }
}
