//! The positions that contracts see, of which the sums keep nothing.
// The positions whose values were summed. They exist only in proofs.
ghost use Rattle.std.specs.Prelude.{◌≡◌, ℤ, List, []};
ghost use base.Fml.{ftrue};

use std::marker::Model;

#[derive(Drop)]
pub struct Seen {
    pub ghost positions: { List (List ℤ) },
}

impl Model for Seen {
    ghost also_owns = { λ _. ftrue };
}

// It owns nothing.
unsafe impl Send for Seen {}

// A position more at the end, or only the first k positions.
#[derive(Clone, Copy, Drop)]
pub enum Change<'a> {
    Push(&'a [i64]),
    CutBack(usize),
}

impl Seen {
    ghost use Rattle.prefix_sums.specs.Changes.{changed};

    // No positions.
    pub fn none() -> Seen
        ensures { result.positions ≡ [] }
    {
        Seen {}
    }

    // The positions after a change.
    #[inline(always)]
    pub fn after(&self, _change: &Change<'_>) -> Seen
        ensures { result.positions ≡ changed self.now.positions _change.now }
    {
        Seen {}
    }
}
