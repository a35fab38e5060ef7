//! The tables of a certificate, and what holds of them before their entries are looked at.
ghost use Rattle.std.specs.Prelude.{◌≡◌, ◌+◌, ◌^◌, ◌≤◌, length, pos, ◌≤ℤ◌};
ghost use Rattle.segment_model.specs.{Limits.IsLength, Cuts.Merges, Values.cost_between, Computed.least_sum_of};
ghost use Rattle.cost_certificate.specs.Totals.{AreCosts, AreTotals};

use segment_cost::Square;

// The costs of some positions, a penalty, a least length of segments, and at each place a least total, a last cut and a mark. The lists are as long as
// the places are many, and the totals such as least totals can be; whether they are the positions' tables is open.
#[derive(Drop)]
pub struct Tables<'a> {
    pub square: &'a Square,
    pub penalty: i128,
    pub len: usize,
    pub least: &'a [i128],
    pub back: &'a [u16],
    pub pruned: &'a [u16],
    ghost few: { length square.now.positions ≤ 16_384 },
    ghost merges: { Merges (cost_between least_sum_of square.now.positions)
        (length square.now.positions) },
    ghost costs: { AreCosts (cost_between least_sum_of square.now.positions)
        (length square.now.positions) },
    ghost low: { pos 0 ≤ℤ penalty },
    ghost high: { penalty ≤ℤ pos (10 ^ 36) },
    ghost is_length: { IsLength len },
    ghost totals: { AreTotals least.now },
    ghost least_length: { length least.now ≡ length square.now.positions + 1 },
    ghost back_length: { length back.now ≡ length square.now.positions + 1 },
    ghost pruned_length: { length pruned.now ≡ length square.now.positions + 1 },
}
