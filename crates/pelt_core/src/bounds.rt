//! The search for the candidate with the least total, which passes over whole blocks of candidates.
//!
//! It begins with the candidate that won last, and no bound need hold for that one. Where another one wins, the bound
//! of the first one's block is lowered by what the first one made.
//!
//! A bound for an earlier place rises by the cost of the segment from there to the end, which is asked for once where
//! neighbouring blocks have one place. So that they do, bounds move to the end together when a block becomes whole. They
//! move seldom, since each move loses what two neighbours cost less than their union.
ghost use Rattle.std.specs.Prelude.{◌≡◌, ◌≢◌, ℕ, ◌+◌, ◌*◌, ◌^◌, ◌<◌, ◌≤◌, length, pos, neg_ℤ, ◌≤ℤ◌, ◌<ℤ◌, ◌↔◌, ◌⊎◌, IsTrue, OnOk};
ghost use Rattle.segment_model.specs.Values.{AreWithinLimits, cost_between};
ghost use Rattle.pelt_core.specs.{Candidates.AreCandidates, Bounds.{bound_at, HaveBounds, IsFirst, AreLooked, IsBelowBlock, IsLowered, IsMoved, IsRise, MayRise, IsNoLater, HaveMore}};

use crate::candidates::last_total;
use segment_cost::{Cost, NoMemory};
use segment_model::value_costs_law;

// How many candidates a block has.
const BLOCK: usize = 256;

// At least what each last segment can make.
const LOWEST: i128 = -1_000_000_000_000_000_000_000_000_000_000_000_000;

// At most what each last segment can make.
const HIGHEST: i128 = 20_000_000_000_000_000_000_000_000_000_000_000_000;

// A place, and at most what a last segment to it makes from each candidate of a block.
#[derive(Clone, Copy, Drop)]
pub struct Bound {
    pub at: usize,
    pub total: i128,
}

// A place, and what the segment from there to the end costs; nothing is known where the place is the end.
#[derive(Clone, Copy, Drop)]
pub struct Rise {
    pub at: usize,
    pub cost: i128,
}

// The index of a candidate, and what a last segment from it makes.
#[derive(Clone, Copy, Drop)]
pub struct Found {
    pub index: usize,
    pub total: i128,
}

// The best of some candidates, and the least total of those of one block.
#[derive(Clone, Copy, Drop)]
struct Looked {
    best: Found,
    low: i128,
}

// The first of the candidates from which a last segment to the end makes the least total.
//
// The one at `guess` is looked at first. Afterwards the bounds hold for all but the one that was found.
pub fn first_least<C: Cost>(
    cost: &C,
    least: &[i128],
    candidates: &[u16],
    bounds: &mut [Bound],
    guess: usize,
) -> Found
    requires some { guess < length candidates.now }
    requires few { length candidates.now ≤ 16_385 }
    requires candidates { AreCandidates (C.positions cost.now) least.now candidates.now }
    requires bounds { HaveBounds (cost_between C.cost_of (C.positions cost.now))
        (length (C.positions cost.now)) least.now candidates.now guess bounds.old }
    ensures bounds { HaveBounds (cost_between C.cost_of (C.positions cost.now))
        (length (C.positions cost.now)) least.now candidates.now result.index bounds.new }
    ensures found { IsFirst (cost_between C.cost_of (C.positions cost.now)) least.now
        (length (C.positions cost.now)) candidates.now guess (length candidates.now) result }
{
    value_costs_law();
    let first = Found {
        index: guess,
        total: last_total(cost, least, usize::from(candidates[guess])),
    };
    let mut rise = Rise {
        at: cost.len(),
        cost: 0,
    };
    let mut best = first;
    for k in 0..blocks_of(candidates.len()) {
        best = look_at_block(cost, least, candidates, bounds, guess, k, &mut rise, best);
    }
    release(bounds, block_of(guess), first, best.index, cost.len());
    best
}

// Lowers the bound of block k by the total to place t of its candidate at which the search began, where another one was
// found.
fn release(bounds: &mut [Bound], k: usize, first: Found, found: usize, t: usize)
    requires { k < length bounds.old }
    ensures same { found ≡ first.index → bounds.new ≡ bounds.old }
    ensures lowered { found ≢ first.index
        → IsLowered (bound_at bounds.old k) t first.total (bound_at bounds.new k) }
    ensures others { (j : ℕ) → j ≢ k → bound_at bounds.new j ≡ bound_at bounds.old j }
{
    if found != first.index {
        lower(bounds, k, t, first.total);
    }
}

// How many blocks so many candidates fill.
pub fn blocks_of(count: usize) -> usize
    requires few { count ≤ 65_536 }
    ensures enough { count ≤ 256 * result }
    ensures needed { (n : ℕ) → count ≤ 256 * n → result ≤ n }
{
    (count + (BLOCK - 1)) / BLOCK
}

// The block in which a candidate stands.
pub fn block_of(index: usize) -> usize
    ensures start { 256 * result ≤ index }
    ensures end { index < 256 * result + 256 }
{
    index / BLOCK
}

// Whether the bound of block k moves to the end, where its candidates aren't looked at. Bounds move only where all blocks
// are whole: those of as many last blocks as the greatest power of two that divides the number of blocks.
//
// So where no candidate is dropped, a bound moves at most once for each power of two, and whole blocks have no more places
// than powers of two make up their number, but for blocks that were looked at since they moved.
fn moves(count: usize, k: usize) -> bool
    ensures { IsTrue result → 256 * k + 256 ≤ count }
{
    let whole = count / BLOCK;
    count % BLOCK == 0 && k < whole && k >= whole & (whole - 1)
}

// The better of `best` and the candidates of block k, which are looked at only where its bound doesn't tell.
fn look_at_block<C: Cost>(
    cost: &C,
    least: &[i128],
    candidates: &[u16],
    bounds: &mut [Bound],
    guess: usize,
    k: usize,
    rise: &mut Rise,
    best: Found,
) -> Found
    requires few { k < 65 }
    requires block { k < length bounds.old }
    requires candidates { AreCandidates (C.positions cost.now) least.now candidates.now }
    requires bounds { HaveBounds (cost_between C.cost_of (C.positions cost.now))
        (length (C.positions cost.now)) least.now candidates.now guess bounds.old }
    requires rise { IsRise (cost_between C.cost_of (C.positions cost.now))
        (length (C.positions cost.now)) rise.old }
    requires found { IsFirst (cost_between C.cost_of (C.positions cost.now)) least.now
        (length (C.positions cost.now)) candidates.now guess (256 * k) best }
    ensures bounds { HaveBounds (cost_between C.cost_of (C.positions cost.now))
        (length (C.positions cost.now)) least.now candidates.now guess bounds.new }
    ensures rise { IsRise (cost_between C.cost_of (C.positions cost.now))
        (length (C.positions cost.now)) rise.new }
    ensures found { IsFirst (cost_between C.cost_of (C.positions cost.now)) least.now
        (length (C.positions cost.now)) candidates.now guess (256 * k + 256) result }
{
    value_costs_law();
    if is_behind(cost, bounds[k], k * BLOCK, rise, best) {
        if moves(candidates.len(), k) {
            bounds[k] = moved(cost, bounds[k], rise);
        }
        return best;
    }
    let looked = best_of_block(cost, least, candidates, guess, k, best);
    bounds[k] = Bound {
        at: cost.len(),
        total: looked.low,
    };
    looked.best
}

// Whether each total that a bound allows, at an index from `start` on, comes behind the best: it is more, or equal at no
// earlier index.
fn is_behind<C: Cost>(cost: &C, bound: Bound, start: usize, rise: &mut Rise, best: Found) -> bool
    requires bound { MayRise (C.positions cost.now) bound }
    requires rise { IsRise (cost_between C.cost_of (C.positions cost.now))
        (length (C.positions cost.now)) rise.old }
    ensures rise { IsRise (cost_between C.cost_of (C.positions cost.now))
        (length (C.positions cost.now)) rise.new }
    ensures behind { IsTrue result
        → IsBelowBlock (cost_between C.cost_of (C.positions cost.now))
        (length (C.positions cost.now)) bound start best }
{
    if comes_first(best, bound.total, start) {
        return true;
    }
    if bound.at >= cost.len() {
        return false;
    }
    comes_first(best, bound.total + cost_from(cost, bound.at, rise), start)
}

// What the segment from a place to the end costs, which is asked for only where it isn't known.
fn cost_from<C: Cost>(cost: &C, at: usize, rise: &mut Rise) -> i128
    requires limits { AreWithinLimits (C.positions cost.now) }
    requires before { at < length (C.positions cost.now) }
    requires rise { IsRise (cost_between C.cost_of (C.positions cost.now))
        (length (C.positions cost.now)) rise.old }
    ensures rise { IsRise (cost_between C.cost_of (C.positions cost.now))
        (length (C.positions cost.now)) rise.new }
    ensures cost { result
        ≡ cost_between C.cost_of (C.positions cost.now) at (length (C.positions cost.now)) }
    ensures low { pos 0 ≤ℤ result }
    ensures high { result ≤ℤ pos (10 ^ 37) }
{
    value_costs_law();
    if rise.at != at {
        *rise = Rise {
            at,
            cost: cost.cost(at, cost.len()),
        };
    }
    rise.cost
}

// The bound, moved to the end.
fn moved<C: Cost>(cost: &C, bound: Bound, rise: &mut Rise) -> Bound
    requires bound { MayRise (C.positions cost.now) bound }
    requires rise { IsRise (cost_between C.cost_of (C.positions cost.now))
        (length (C.positions cost.now)) rise.old }
    ensures rise { IsRise (cost_between C.cost_of (C.positions cost.now))
        (length (C.positions cost.now)) rise.new }
    ensures moved { IsMoved (cost_between C.cost_of (C.positions cost.now))
        (length (C.positions cost.now)) bound result }
{
    if bound.at >= cost.len() {
        return bound;
    }
    Bound {
        at: cost.len(),
        total: at_most_highest(bound.total + cost_from(cost, bound.at, rise)),
    }
}

// The total, or what each last segment makes at most, where that is less.
fn at_most_highest(total: i128) -> i128
    ensures at_most { result ≤ℤ total }
    ensures high { result ≤ℤ pos (2 * 10 ^ 37) }
    ensures one { (result ≡ total) ⊎ (result ≡ pos (2 * 10 ^ 37)) }
{
    if total < HIGHEST { total } else { HIGHEST }
}

// Whether the best is less than a total, or equal to it and at no later index.
fn comes_first(best: Found, total: i128, index: usize) -> bool
    ensures { IsTrue result ↔ IsNoLater best total index }
{
    best.total <= total && (best.total < total || best.index <= index)
}

// The better of `best` and the candidates of block k, and the least total of these without the one at `guess`.
fn best_of_block<C: Cost>(
    cost: &C,
    least: &[i128],
    candidates: &[u16],
    guess: usize,
    k: usize,
    best: Found,
) -> Looked
    requires block { k < 65 }
    requires candidates { AreCandidates (C.positions cost.now) least.now candidates.now }
    requires found { IsFirst (cost_between C.cost_of (C.positions cost.now)) least.now
        (length (C.positions cost.now)) candidates.now guess (256 * k) best }
    ensures { AreLooked (cost_between C.cost_of (C.positions cost.now)) least.now
        (length (C.positions cost.now)) candidates.now
        guess (256 * k) (256 * k + 256) result.best result.low }
{
    let start = k * BLOCK;
    let mut best = best;
    let mut low = HIGHEST;
    for i in start..candidates.len().min(start + BLOCK) {
        let here = Found {
            index: i,
            total: last_total(cost, least, usize::from(candidates[i])),
        };
        best = better(best, here);
        low = lower_of(low, here, guess);
    }
    Looked { best, low }
}

// The one with the smaller total; of equal totals the one at the smaller index.
fn better(best: Found, here: Found) -> Found
    ensures here { ((here.total <ℤ best.total)
        ⊎ ((here.total ≡ best.total) × (here.index < best.index))) → result ≡ here }
    ensures best { IsNoLater best here.total here.index → result ≡ best }
{
    if comes_first(best, here.total, here.index) {
        best
    } else {
        here
    }
}

// The smaller total, without regard to the one at `guess`.
fn lower_of(low: i128, here: Found, guess: usize) -> i128
    ensures kept { result ≤ℤ low }
    ensures here { here.index ≢ guess → result ≤ℤ here.total }
    ensures one { (result ≡ low) ⊎ (result ≡ here.total) }
{
    if here.index != guess && here.total < low {
        here.total
    } else {
        low
    }
}

// Adds bounds that hold for any places, as many as are missing to a count.
#[tactic(auto, using(crate::proofs::Blocks::more_none, crate::proofs::Blocks::more_push))]
pub fn add_bounds(bounds: &mut Vec<Bound>, count: usize) -> Result<(), NoMemory>
    ensures more { HaveMore bounds.old.items bounds.new.items }
    ensures enough { OnOk result (count ≤ length bounds.new.items) }
{
    while bounds.len() < count {
        bounds.push(Bound {
            at: 0,
            total: LOWEST,
        })?;
    }
    Ok(())
}

// Lowers a block's bound by a total to place t.
pub fn lower(bounds: &mut [Bound], k: usize, t: usize, total: i128)
    requires { k < length bounds.old }
    ensures lowered { IsLowered (bound_at bounds.old k) t total (bound_at bounds.new k) }
    ensures others { (j : ℕ) → j ≢ k → bound_at bounds.new j ≡ bound_at bounds.old j }
{
    bounds[k] = lowered(bounds[k], t, total);
}

// A bound, lowered by a total to place t.
fn lowered(bound: Bound, t: usize, total: i128) -> Bound
    ensures { IsLowered bound t total result }
{
    if total < bound.total {
        Bound { at: t, total }
    } else {
        Bound {
            at: t,
            total: bound.total,
        }
    }
}

// Makes each bound the same.
pub fn reset(bounds: &mut [Bound], bound: Bound)
    ensures { (k : ℕ) → k < length bounds.old → bound_at bounds.new k ≡ bound }
{
    for k in 0..bounds.len() {
        bounds[k] = bound;
    }
}

// Makes each bound one that holds for any places up to place t.
pub fn forget(bounds: &mut [Bound], t: usize)
    ensures { (k : ℕ) → k < length bounds.old
        → bound_at bounds.new k ≡ record { at = t; total = neg_ℤ (pos (10 ^ 36)) } }
{
    reset(
        bounds,
        Bound {
            at: t,
            total: LOWEST,
        },
    );
}
