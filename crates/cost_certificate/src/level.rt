//! Places whose totals lie within the penalty of each other, and that stay open: their pairs hold without a look at each.
ghost use Rattle.std.specs.Prelude.{◌≡◌, ◌+◌, ◌*◌, ◌^◌, ◌<◌, ◌≤◌, pos, neg_ℤ, ◌+ℤ◌, ◌≤ℤ◌, ◌⊎◌, IsTrue};
ghost use Rattle.cost_certificate.specs.Checks.{IsLevel, last_place};

use crate::tables::Tables;

// At least each total.
const HIGHEST: i128 = 20_000_000_000_000_000_000_000_000_000_000_000_000;

// Whether a total is at most the penalty above the least one before it, and a place with that mark is open at `end`.
fn is_near(bottom: i128, penalty: i128, total: i128, mark: usize, end: usize) -> bool
    requires low { pos 0 ≤ℤ penalty }
    requires high { penalty ≤ℤ pos (10 ^ 36) }
    requires bottom_low { neg_ℤ (pos (10 ^ 36)) ≤ℤ bottom }
    requires bottom_high { bottom ≤ℤ pos (2 * 10 ^ 37) }
    ensures total { IsTrue result → total ≤ℤ (bottom +ℤ penalty) }
    ensures mark { IsTrue result → (mark ≡ 0) ⊎ (end < mark) }
{
    total <= bottom + penalty && (mark == 0 || mark > end)
}

// The smaller of two totals.
fn lower_of(bottom: i128, total: i128) -> i128
    ensures both { (result ≤ℤ bottom) × (result ≤ℤ total) }
    ensures one { (result ≡ bottom) ⊎ (result ≡ total) }
{
    if total < bottom { total } else { bottom }
}

// Whether each place from `from` on, before `end`, is open up to there, and its total at most the penalty below those behind.
pub fn is_level(tables: &Tables, from: usize, end: usize) -> bool
    requires { end ≤ last_place tables.now }
    ensures { IsTrue result → IsLevel tables.now from end end }
{
    let mut bottom = HIGHEST;
    for s in from..end {
        bottom = lower_of(bottom, tables.least[s]);
        if !is_near(
            bottom,
            tables.penalty,
            tables.least[s + 1],
            tables.pruned[s] as usize,
            end,
        ) {
            return false;
        }
    }
    true
}
