//! The pairs of places, block by block.
//!
//! What a last segment from a place makes to the places of a block is at least what it makes to the block's beginning and
//! the cost of the segment from there on, since neighbouring segments cost together at most what their union costs. So
//! for each block it is computed once what must be made to its beginning, and most places need no other look. Nor do most
//! blocks of places before it: what their places make to a place, looked at once, is a floor of what they make behind it.
ghost use Rattle.std.specs.Prelude.{◌≡◌, ◌≢◌, ℕ, ◌+◌, ◌*◌, ◌^◌, ◌<◌, ◌≤◌, length, pos, neg_ℤ, ◌+ℤ◌, ◌≤ℤ◌, ◌↔◌, ◌⊎◌, IfNone, IfSome, IsTrue, false, true};
ghost use Rattle.cost_certificate.specs.Checks.{AreWatches, IsNeed, IsWatch, MarksHold, PlaceHolds, PlaceHoldsInBlock, PlacesHoldInBlock, cost_in, last_place, watch_at};

use crate::entries::{is_mark, last_open, made_from, pairs_hold, reach_of};
use crate::level::is_level;
use crate::tables::Tables;
use segment_cost::Cost;

// How many places a block has.
const BLOCK: usize = 32;

// At most each total, and the cost of a segment less.
const LOWEST: i128 = -20_000_000_000_000_000_000_000_000_000_000_000_000;

// At least what a last segment makes.
const HIGHEST: i128 = 20_000_000_000_000_000_000_000_000_000_000_000_000;

// How many blocks there are: enough for the places of 16,384 positions.
const BLOCKS: usize = 512;

// What must be made to a block's beginning, and the place from which on all are settled by its last cuts.
#[derive(Clone, Copy, Drop)]
pub struct Need {
    pub total: i128,
    pub reach: usize,
}

// What must be made to place `from` so that no pair with a place behind it, up to `end`, needs a look.
fn need_of(tables: &Tables, from: usize, end: usize) -> Need
    requires inside { from ≤ end }
    requires placed { end ≤ last_place tables.now }
    ensures { IsNeed tables.now from end result }
{
    let mut need = Need {
        total: LOWEST,
        reach: 0,
    };
    for t in from + 1..end + 1 {
        need = need_with(
            need,
            tables.least[t] - tables.square.cost(from, t),
            reach_of(tables.len, tables.back[t] as usize),
        );
    }
    need
}

// The need with a place more.
fn need_with(need: Need, total: i128, reach: usize) -> Need
    ensures total { (need.total ≤ℤ result.total) × (total ≤ℤ result.total)
        × ((result.total ≡ need.total) ⊎ (result.total ≡ total)) }
    ensures reach { (need.reach ≤ result.reach) × (reach ≤ result.reach) }
{
    Need {
        total: if total > need.total {
            total
        } else {
            need.total
        },
        reach: if reach > need.reach {
            reach
        } else {
            need.reach
        },
    }
}

// Whether what place s makes to the beginning of a block tells that each pair with a place of the block holds.
fn needs_no_look(need: Need, made: i128, penalty: i128, s: usize) -> bool
    requires low { pos 0 ≤ℤ penalty }
    requires high { penalty ≤ℤ pos (10 ^ 36) }
    requires made_low { neg_ℤ (pos (2 * 10 ^ 37)) ≤ℤ made }
    requires made_high { made ≤ℤ pos (3 * 10 ^ 37) }
    ensures total { IsTrue result → need.total ≤ℤ (made +ℤ penalty) }
    ensures reach { IsTrue result → need.reach ≤ s }
{
    need.reach <= s && need.total <= made + penalty
}

// Whether it is told without a look at each that the pairs of s with places behind `from`, up to `end`, at which s is open,
// hold.
fn is_told(tables: &Tables, need: Need, s: usize, from: usize, end: usize) -> bool
    requires placed { end ≤ last_place tables.now }
    requires inside { from ≤ end }
    requires need { IsNeed tables.now from end need }
    ensures { IsTrue result → PlaceHoldsInBlock tables.now s from end }
{
    if s >= from {
        return false;
    }
    let mark = tables.pruned[s] as usize;
    if is_closed(tables.len, mark, from) {
        return true;
    }
    if !is_open_behind(mark, end) {
        return false;
    }
    needs_no_look(need, made_from(tables, s, from), tables.penalty, s)
}

// Whether a place with that mark is closed from the place behind `from` on.
fn is_closed(len: usize, mark: usize, from: usize) -> bool
    requires { 0 < len }
    ensures { IsTrue result ↔ ((mark ≢ 0) × (mark + len ≤ from + 1)) }
{
    if mark == 0 {
        return false;
    }
    if mark > from {
        return false;
    }
    len - 1 <= from - mark
}

// Whether a place with that mark is open at `end` and behind it.
fn is_open_behind(mark: usize, end: usize) -> bool
    ensures { IsTrue result ↔ ((mark ≡ 0) ⊎ (end < mark)) }
{
    mark == 0 || mark > end
}

// Whether each pair of s with a place behind `from`, up to `end`, at which s is open, holds.
fn place_holds(tables: &Tables, need: Need, s: usize, from: usize, end: usize) -> bool
    requires placed { end ≤ last_place tables.now }
    requires inside { from ≤ end }
    requires below { s < end }
    requires need { IsNeed tables.now from end need }
    ensures { IsTrue result ↔ PlaceHoldsInBlock tables.now s from end }
{
    if is_told(tables, need, s, from, end) {
        return true;
    }
    let mark = tables.pruned[s] as usize;
    pairs_hold(tables, s, s.max(from), last_open(tables.len, end, mark))
}

// What was seen of the places of a block at place `at`: those that aren't closed there have no mark up to `until`, and make
// at least `total`; there are none of them where the block is shut.
#[derive(Clone, Copy, Drop)]
pub struct Watch {
    pub at: usize,
    pub total: i128,
    pub until: usize,
    pub is_shut: bool,
}

// What is known of any block.
const NOTHING: Watch = Watch {
    at: 0,
    total: LOWEST,
    until: 0,
    is_shut: false,
};

// At most what each watched place makes to place `from`.
fn floor_at(tables: &Tables, watch: Watch, from: usize) -> i128
    requires placed { from ≤ last_place tables.now }
    requires before { watch.at ≤ from }
    requires low { neg_ℤ (pos (2 * 10 ^ 37)) ≤ℤ watch.total }
    requires high { watch.total ≤ℤ pos (2 * 10 ^ 37) }
    ensures total { result ≤ℤ (watch.total +ℤ cost_in tables.now watch.at from) }
    ensures low { neg_ℤ (pos (2 * 10 ^ 37)) ≤ℤ result }
    ensures high { result ≤ℤ pos (3 * 10 ^ 37) }
{
    if watch.at == from {
        return watch.total;
    }
    watch.total + tables.square.cost(watch.at, from)
}

// Whether it is told of each place of a block of places, from `start` on, that its pairs with the places behind `from`, up
// to `end`, hold.
fn passes(tables: &Tables, need: Need, watch: Watch, start: usize, from: usize, end: usize) -> bool
    requires placed { from ≤ last_place tables.now }
    requires before { watch.at ≤ from }
    requires total_low { neg_ℤ (pos (2 * 10 ^ 37)) ≤ℤ watch.total }
    requires total_high { watch.total ≤ℤ pos (2 * 10 ^ 37) }
    ensures { IsTrue result → (watch.is_shut ≡ true)
        ⊎ ((need.reach ≤ start) × (end ≤ watch.until)
        × (need.total ≤ℤ (watch.total +ℤ cost_in tables.now watch.at from +ℤ tables.now.penalty))) }
{
    if watch.is_shut {
        return true;
    }
    if end > watch.until {
        return false;
    }
    if needs_no_look(need, watch.total, tables.penalty, start) {
        return true;
    }
    needs_no_look(need, floor_at(tables, watch, from), tables.penalty, start)
}

// What is known of a block with a place more, which isn't closed, has that mark, and makes that.
fn watch_with(watch: Watch, made: i128, mark: usize) -> Watch
    ensures total { (result.total ≤ℤ watch.total) × (result.total ≤ℤ made)
        × ((result.total ≡ watch.total) ⊎ (result.total ≡ made)) }
    ensures until { (result.until ≤ watch.until) × ((mark ≡ 0) ⊎ (result.until < mark)) }
    ensures open { result.is_shut ≡ false }
    ensures at { result.at ≡ watch.at }
{
    Watch {
        at: watch.at,
        total: made.min(watch.total),
        until: if mark == 0 {
            watch.until
        } else {
            watch.until.min(mark - 1)
        },
        is_shut: false,
    }
}

// What was seen of a block with place s more.
fn next_watch(tables: &Tables, watch: Watch, start: usize, s: usize) -> Watch
    requires placed { watch.at ≤ last_place tables.now }
    requires below { s < watch.at }
    requires watch { IsWatch tables.now start s watch.at watch }
    ensures watch { IsWatch tables.now start (s + 1) watch.at result }
    ensures at { result.at ≡ watch.at }
{
    let mark = tables.pruned[s] as usize;
    if is_closed(tables.len, mark, watch.at) {
        return watch;
    }
    watch_with(watch, made_from(tables, s, watch.at), mark)
}

// What is seen at place `from` of the places from `start` on, before `stop`.
fn watch_of(tables: &Tables, start: usize, stop: usize, from: usize) -> Watch
    requires placed { from ≤ last_place tables.now }
    requires front { stop ≤ from }
    ensures { IsWatch tables.now start stop from result }
{
    let mut watch = Watch {
        at: from,
        total: HIGHEST,
        until: tables.square.len(),
        is_shut: true,
    };
    for s in start..stop {
        watch = next_watch(tables, watch, start, s);
    }
    watch
}

// Whether each pair holds whose first place lies from `start` on, before `stop`, and whose second one behind `from`, up to
// `end`.
fn range_holds(
    tables: &Tables,
    need: Need,
    start: usize,
    stop: usize,
    from: usize,
    end: usize,
) -> bool
    requires placed { end ≤ last_place tables.now }
    requires inside { from ≤ end }
    requires below { stop ≤ end }
    requires need { IsNeed tables.now from end need }
    ensures { IsTrue result ↔ PlacesHoldInBlock tables.now start stop from end }
{
    for s in start..stop {
        if !place_holds(tables, need, s, from, end) {
            return false;
        }
    }
    true
}

// What is known of a block of places from place `from` on, where each of its pairs holds whose second place lies behind it,
// up to `end`; none where one doesn't.
//
// The single places are looked at only where what was known of the block doesn't tell.
fn front_holds(
    tables: &Tables,
    need: Need,
    watch: Watch,
    start: usize,
    stop: usize,
    from: usize,
    end: usize,
) -> Option<Watch>
    requires placed { end ≤ last_place tables.now }
    requires inside { from ≤ end }
    requires front { stop ≤ from }
    requires need { IsNeed tables.now from end need }
    requires watch { IsWatch tables.now start stop from watch }
    ensures holds { IfSome result (λ next. PlacesHoldInBlock tables.now start stop from end) }
    ensures watch { IfSome result (λ next. IsWatch tables.now start stop from next) }
    ensures none { IfNone result (¬ PlacesHoldInBlock tables.now start stop from end) }
{
    if passes(tables, need, watch, start, from, end) {
        return Some(watch);
    }
    let seen = watch_of(tables, start, stop, from);
    if passes(tables, need, seen, start, from, end) {
        return Some(seen);
    }
    if !range_holds(tables, need, start, stop, from, end) {
        return None;
    }
    Some(seen)
}

// How many of the first k blocks are shut before one isn't.
fn first_open(watches: &[Watch], k: usize) -> usize
    requires { k ≤ length watches.now }
    ensures within { result ≤ k }
    ensures shut { (j : ℕ) → j < result → (watch_at watches.now j).is_shut ≡ true }
{
    for j in 0..k {
        if !watches[j].is_shut {
            return j;
        }
    }
    k
}

// Whether each pair holds whose first place lies before block k and whose second one in it, up to `end`. Afterwards the
// watches hold from the block's beginning on.
fn fronts_hold(tables: &Tables, need: Need, watches: &mut [Watch], k: usize, end: usize) -> bool
    requires block { k < 512 }
    requires placed { end ≤ last_place tables.now }
    requires inside { k * 32 ≤ end }
    requires need { IsNeed tables.now (k * 32) end need }
    requires watches { AreWatches tables.now (k * 32) watches.old }
    ensures holds { IsTrue result
        ↔ ((s : ℕ) → s < k * 32 → PlaceHoldsInBlock tables.now s (k * 32) end) }
    ensures watches { AreWatches tables.now (k * 32) watches.new }
{
    for j in first_open(watches, k)..k {
        let known = front_holds(
            tables,
            need,
            watches[j],
            j * BLOCK,
            j * BLOCK + BLOCK,
            k * BLOCK,
            end,
        );
        let Some(watch) = known else {
            return false;
        };
        watches[j] = watch;
    }
    true
}

// Whether each pair of places holds whose second one lies in block k, up to `end`. Afterwards the watches hold from `end` on.
fn block_holds(tables: &Tables, watches: &mut [Watch], k: usize, end: usize) -> bool
    requires block { k < 512 }
    requires placed { end ≤ last_place tables.now }
    requires inside { k * 32 ≤ end }
    requires watches { AreWatches tables.now (k * 32) watches.old }
    ensures holds { IsTrue result
        ↔ ((s : ℕ) → s < end → PlaceHoldsInBlock tables.now s (k * 32) end) }
    ensures watches { AreWatches tables.now (k * 32 + 32) watches.new }
{
    let from = k * BLOCK;
    let need = need_of(tables, from, end);
    if !fronts_hold(tables, need, watches, k, end) {
        return false;
    }
    own_holds(tables, need, from, end)
}

// Whether each pair of places of one block holds, from `from` on, up to `end`. They are looked at one by one only where the
// block isn't level.
fn own_holds(tables: &Tables, need: Need, from: usize, end: usize) -> bool
    requires placed { end ≤ last_place tables.now }
    requires inside { from ≤ end }
    requires need { IsNeed tables.now from end need }
    ensures { IsTrue result ↔ PlacesHoldInBlock tables.now from end from end }
{
    if need.reach <= from && is_level(tables, from, end) {
        return true;
    }
    range_holds(tables, need, from, end, from, end)
}

// How many blocks so many places fill.
fn blocks_of(count: usize) -> usize
    requires few { count ≤ 16_384 }
    ensures enough { count ≤ 32 * result }
    ensures needed { 32 * result < count + 32 }
{
    (count + (BLOCK - 1)) / BLOCK
}

// The watches before any block was seen.
fn no_watches(tables: &Tables) -> [Watch; BLOCKS]
    ensures { AreWatches tables.now 0 result }
{
    [NOTHING; BLOCKS]
}

// Whether each pair of places holds.
fn blocks_hold(tables: &Tables) -> bool
    ensures { IsTrue result ↔ ((s : ℕ) → PlaceHoldsInBlock tables.now s 0 (last_place tables.now)) }
{
    let n = tables.square.len();
    let mut watches = no_watches(tables);
    for k in 0..blocks_of(n) {
        if !block_holds(tables, &mut watches, k, n.min(k * BLOCK + BLOCK)) {
            return false;
        }
    }
    true
}

// Whether each mark may be one.
fn marks_hold(tables: &Tables) -> bool
    ensures { IsTrue result ↔ MarksHold tables.now }
{
    let n = tables.square.len();
    for s in 0..tables.pruned.len() {
        if !is_mark(n, s, tables.pruned[s] as usize) {
            return false;
        }
    }
    true
}

// Whether each place holds.
pub fn places_hold(tables: &Tables) -> bool
    ensures { IsTrue result ↔ ((s : ℕ) → s ≤ last_place tables.now → PlaceHolds tables.now s) }
{
    if !marks_hold(tables) {
        return false;
    }
    blocks_hold(tables)
}
