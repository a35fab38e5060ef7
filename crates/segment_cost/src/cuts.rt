//! Cuts by a table of last cuts.
ghost use Rattle.std.specs.Prelude.{◌≡◌, ℕ, ◌<◌, ◌⊎◌, ◌↔◌, IsTrue, length, IfOk, slice_index};
ghost use Rattle.segment_model.specs.Tables.{IsCandidate, IsWalk};

use crate::NoMemory;
use std::alloc::Global;

/// The cuts that a table of last cuts gives from place n down, the last one first.
pub fn cuts_back(alloc: Global, back: &[u16], n: usize) -> Result<Vec<u64>, NoMemory>
    requires below { (s : ℕ) → s < length back.now
        → (slice_index back.now s < s) ⊎ (slice_index back.now s ≡ 0) }
    requires placed { n < length back.now }
    ensures { IfOk result (λ cuts. IsWalk back.now n cuts.items) }
{
    let mut cuts = Vec::new(alloc);
    let mut t = n;
    while back[t] > 0 {
        cuts.push(u64::from(back[t]))?;
        t = usize::from(back[t]);
    }
    Ok(cuts)
}

/// Whether the last segment of t positions may begin at place s.
pub fn is_candidate(len: usize, t: usize, s: usize) -> bool
    ensures { IsTrue result ↔ IsCandidate len t s }
{
    if s >= t {
        return false;
    }
    if s == 0 {
        return true;
    }
    len <= s && len <= t - s
}
