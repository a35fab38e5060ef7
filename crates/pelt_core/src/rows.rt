//! The rows of a pruned table, one for each place, and the places that may still be a last cut.
ghost use Rattle.std.specs.Prelude.{◌≡◌, ℕ, ℤ, ◌+◌, ◌*◌, ◌^◌, ◌<◌, ◌≤◌, length, pos, ◌≤ℤ◌, OnOk, IfOk, vec_len, vec_capacity};
ghost use Rattle.segment_model.specs.{Tables.{int_at, IsFirstLeast}, Values.cost_between};
ghost use Rattle.pelt_core.specs.Bounds.{AreInRange};

use crate::bounds::{
    Bound, Found, add_bounds, block_of, blocks_of, first_least, forget, lower, reset,
};
use crate::candidates::{drop_marked, either, mark_between, mark_first, refill, unmark};
use segment_cost::{Cost, NoMemory};
use segment_model::{
    growth_law, last_cut_law, pruning_law, shrinking_law, table_law, value_costs_law,
};
use std::alloc::Global;

// The least totals, the last cuts and the places of pruning, from place 0 on, and the places from which the next last segment
// may begin.
#[derive(Drop)]
pub struct Rows {
    // How many positions each segment has at least, where there is more than one.
    pub length: u8,
    pub least: Vec<i128>,
    pub back: Vec<u16>,
    pub pruned: Vec<u16>,
    pub candidates: Vec<u16>,
    // For each block of candidates a lower bound of what last segments from them make.
    pub bounds: Vec<Bound>,
    // The index of the last winner, as a first guess at the next; no bound need hold for it.
    pub leader: usize,
    // No candidate has a mark up to this place.
    pub swept: usize,
    // The last place that is a mark, and the place at which candidates are looked through for those that can be dropped; 0
    // where there is no such place.
    pub latest: usize,
    pub due: usize,
}

impl Rows {
    ghost use Rattle.std.specs.Prelude.{slice_index};
    ghost use Rattle.pelt_core.specs.{Bounds.{HaveBounds, IsMade}, Candidates.{AreTotals, AreCandidates, AreLookedAt, IsNear}, Rows.{ArePruned, HaveRoom, CanGrow, AddsRow, HasRoomMade, SameButMarks, IsSwept, AreRenewed, IsAdmitted}};
    ghost use Rattle.segment_model.specs.{Limits.IsLength, Tables.IsCandidate};

    // The rows of no positions.
    pub fn start(alloc: Global, penalty: i128, len: u8) -> Result<Rows, NoMemory>
        requires low { pos 0 ≤ℤ penalty }
        requires high { penalty ≤ℤ pos (10 ^ 36) }
        requires length { IsLength len }
        ensures pruned { IfOk result
            (λ rows. (cost : ℕ → ℕ → ℤ) → cost 0 0 ≡ pos 0 → ArePruned cost 0 penalty rows) }
        ensures length { IfOk result (λ rows. rows.length ≡ len) }
    {
        growth_law();
        let mut bounds = vec![in alloc; Bound { at: 0, total: 0 }]?;
        forget(&mut bounds, 0);
        Ok(Rows {
            length: len,
            least: vec![in alloc; -penalty]?,
            back: vec![in alloc; 0]?,
            pruned: vec![in alloc; 0]?,
            candidates: vec![in alloc; 0]?,
            bounds,
            leader: 0,
            swept: 0,
            latest: 0,
            due: 0,
        })
    }

    // Makes room for so many places more, and bounds for their blocks; changes no other list.
    #[tactic(auto, using(crate::proofs::Blocks::more_none))]
    pub fn reserve(&mut self, more: usize) -> Result<(), NoMemory>
        requires few { length self.old.least.items ≤ 16_385 }
        requires some { 0 < more }
        requires few_more { more ≤ 16_385 }
        ensures same { HasRoomMade self.old self.new }
        ensures room { OnOk result (HaveRoom self.new) }
    {
        self.least.reserve(more)?;
        self.back.reserve(more)?;
        self.pruned.reserve(more)?;
        let places = self.least.len() + more;
        self.candidates
            .reserve(places.saturating_sub(self.candidates.len()))?;
        add_bounds(&mut self.bounds, blocks_of(places))
    }

    // Adds the row of the last position: its last cut is the first candidate that makes the least total. Says which it is.
    fn next_row<C: Cost>(&mut self, cost: &C, penalty: i128) -> Found
        requires { CanGrow C.cost_of (C.positions cost.now) penalty self.old }
        ensures found { IsFirstLeast (cost_between C.cost_of (C.positions cost.now))
            self.old.length (int_at self.old.least.items) (length (C.positions cost.now))
            (slice_index self.old.candidates.items result.index) }
        ensures made { IsMade (cost_between C.cost_of (C.positions cost.now))
            self.old.least.items (length (C.positions cost.now))
            self.old.candidates.items result }
        ensures row { AddsRow penalty result self.old self.new }
        ensures bounds { HaveBounds (cost_between C.cost_of (C.positions cost.now))
            (length (C.positions cost.now))
            self.old.least.items self.old.candidates.items result.index self.new.bounds.items }
    {
        table_law();
        pruning_law();
        value_costs_law();
        let guess = self.leader.min(self.candidates.len() - 1);
        let found = first_least(cost, &self.least, &self.candidates, &mut self.bounds, guess);
        self.least.push_reserved(found.total + penalty);
        self.back.push_reserved(self.candidates[found.index]);
        self.pruned.push_reserved(0);
        found
    }

    // Marks with the number of positions the places without a mark from which the segment to the end is dear: only those
    // before the last cut, which is the candidate at `index`, and those less than a least length behind it can be. Says
    // whether there were some.
    fn mark_dear<C: Cost>(&mut self, cost: &C, index: usize) -> bool
        requires candidates { AreCandidates (C.positions cost.now) self.old.least.items
            self.old.candidates.items }
        requires begins { (i : ℕ) → i < length self.old.candidates.items
            → IsCandidate self.old.length (length (C.positions cost.now))
            (slice_index self.old.candidates.items i) }
        requires index { index < length self.old.candidates.items }
        requires least { length self.old.least.items ≡ length (C.positions cost.now) + 1 }
        requires pruned { length self.old.pruned.items ≡ length (C.positions cost.now) + 1 }
        requires length { IsLength self.old.length }
        ensures marks { AreLookedAt (cost_between C.cost_of (C.positions cost.now))
            self.old.length self.old.least.items (length (C.positions cost.now))
            (IsNear self.old.candidates.items index self.old.length
            (slice_index self.old.candidates.items index))
            self.old.pruned.items self.new.pruned.items }
        ensures same { SameButMarks self.old self.new }
    {
        let last_cut = usize::from(self.candidates[index]);
        let before = mark_first(cost, &self.least, &mut self.pruned, &self.candidates, index);
        let behind = mark_between(
            cost,
            &self.least,
            &mut self.pruned,
            last_cut + 1,
            end_of_near(last_cut, usize::from(self.length)),
        );
        either(before, behind)
    }

    // Drops the candidates that have a mark up to place g, where it is time to look for them; says whether it was: a least
    // length less one behind the first place that became a mark since that was done last. Until then they are candidates still.
    fn sweep(&mut self, any: bool, t: usize, g: usize) -> bool
        requires few { t ≤ 16_384 }
        requires length { IsLength self.old.length }
        ensures { IsSwept g result self.old self.new }
    {
        self.latest = latest_of(self.latest, any, t);
        self.due = next_due(self.due, any, t + usize::from(self.length) - 1);
        if !is_due(self.due, t) {
            return false;
        }
        drop_marked(&mut self.candidates, &self.pruned, g);
        self.swept = g;
        self.due = next_due(0, self.latest > g, t + usize::from(self.length) - 1);
        true
    }

    // Renews the bounds where candidates were dropped: all candidates make at least that total to place t. The last winner stood
    // at `index` among `before` candidates.
    fn renew(&mut self, swept: bool, t: usize, total: i128, index: usize, before: usize)
        ensures { AreRenewed swept t total index self.old self.new }
    {
        self.leader = index;
        if swept {
            self.leader = index.saturating_sub(before.saturating_sub(self.candidates.len()));
            reset(&mut self.bounds, Bound { at: t, total });
        }
    }

    // Makes place `ready` a candidate for the places behind t, where a segment may begin there.
    fn admit(&mut self, t: usize, ready: usize)
        requires placed { ready < length self.old.least.items }
        requires totals { AreTotals self.old.least.items }
        requires few { length self.old.candidates.items < 16_640 }
        requires bounds { length self.old.candidates.items < 256 * length self.old.bounds.items }
        requires small { ready ≤ 16_384 }
        requires room { vec_len self.old.candidates < vec_capacity self.old.candidates }
        ensures { IsAdmitted t ready self.old self.new }
    {
        if ready < usize::from(self.length) {
            return;
        }
        let block = block_of(self.candidates.len());
        lower(&mut self.bounds, block, t, self.least[ready]);
        self.candidates.push_reserved(ready as u16);
    }

    // Adds the row of the last position, marks the places that it prunes, drops candidates and takes in the next one.
    pub fn grow<C: Cost>(&mut self, cost: &C, penalty: i128)
        requires { CanGrow C.cost_of (C.positions cost.now) penalty self.old }
        ensures pruned { ArePruned (cost_between C.cost_of (C.positions cost.now))
            (length (C.positions cost.now)) penalty self.new }
        ensures length { self.new.length ≡ self.old.length }
    {
        growth_law();
        last_cut_law();
        pruning_law();
        table_law();
        value_costs_law();
        let t = cost.len();
        let ready = (t + 1).saturating_sub(usize::from(self.length));
        let found = self.next_row(cost, penalty);
        let any = self.mark_dear(cost, found.index);
        let before = self.candidates.len();
        let swept = self.sweep(any, t, ready);
        self.renew(swept, t, found.total, found.index, before);
        self.admit(t, ready);
    }
    // Keeps the rows of the first k positions, and takes away the marks behind them.
    pub fn cut_back(&mut self, k: usize)
        requires placed { k < length self.old.least.items }
        requires few { length self.old.least.items ≤ 16_385 }
        requires same { length self.old.pruned.items ≡ length self.old.least.items }
        requires room { length self.old.least.items ≤ vec_capacity self.old.candidates }
        requires length { IsLength self.old.length }
        ensures pruned { (cost : ℕ → ℕ → ℤ) (n : ℕ) (b : ℤ)
            → k ≤ n → pos 0 ≤ℤ b → b ≤ℤ pos (10 ^ 36)
            → AreInRange cost n
            → ArePruned cost n b self.old → ArePruned cost k b self.new }
        ensures length { self.new.length ≡ self.old.length }
    {
        shrinking_law();
        table_law();
        let len = usize::from(self.length);
        let ready = (k + 1).saturating_sub(len);
        self.least.truncate(k + 1);
        self.back.truncate(k + 1);
        self.pruned.truncate(k + 1);
        unmark(&mut self.pruned, k);
        refill(&mut self.candidates, &self.pruned, len, ready, ready + 1);
        forget(&mut self.bounds, k);
        self.swept = ready;
        self.latest = k;
        self.due = k + len - 1;
    }
}

// The end of the places behind a last cut that aren't settled by it: none is where it is 0.
fn end_of_near(last_cut: usize, len: usize) -> usize
    requires few { last_cut ≤ 16_384 }
    requires length { len ≤ 64 }
    ensures none { last_cut ≡ 0 → result ≡ 0 }
    ensures some { 0 < last_cut → result ≡ last_cut + len }
{
    if last_cut == 0 { 0 } else { last_cut + len }
}

// The last place that is a mark, after place t became one or didn't.
fn latest_of(latest: usize, any: bool, t: usize) -> usize {
    if any { t } else { latest }
}

// The place at which candidates are looked through next: the one that was set, or the later one, where there is something new.
fn next_due(due: usize, any: bool, later: usize) -> usize {
    if due == 0 && any { later } else { due }
}

// Whether it is time for what is to be done at a place: 0 where there is no such place.
fn is_due(due: usize, t: usize) -> bool {
    due > 0 && due <= t
}
