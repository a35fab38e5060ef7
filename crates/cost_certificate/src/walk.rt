//! Whether cuts are the walk along the last cuts.
ghost use Rattle.std.specs.Prelude.{◌≡◌, ℕ, ◌<◌, ◌⊎◌, length, reverse, ◌↔◌, IsTrue, slice_index};
ghost use Rattle.segment_model.specs.Tables.{IsWalk};

// Whether the cuts are those that a table of last cuts gives from place n down.
pub fn cuts_hold(cuts: &[u64], back: &[u16], n: usize) -> bool
    requires below { (s : ℕ) → s < length back.now
        → (slice_index back.now s < s) ⊎ (slice_index back.now s ≡ 0) }
    requires placed { n < length back.now }
    ensures { IsTrue result ↔ IsWalk back.now n (reverse cuts.now) }
{
    let mut t = n;
    let mut left = cuts.len();
    while left > 0 {
        left -= 1;
        if !is_step(back[t], cuts[left]) {
            return false;
        }
        t = cuts[left] as usize;
    }
    back[t] == 0
}

// Whether a cut is the last cut, and is one.
fn is_step(last_cut: u16, cut: u64) -> bool
    ensures { IsTrue result ↔ ((last_cut ≡ cut) × (0 < cut)) }
{
    last_cut as u64 == cut && cut > 0
}
