//! A stretch of penalties with one best cut list.

use line_text::Duplicate;
use segment_cost::{Cert, NoMemory};
use std::alloc::Global;

/// Penalties with one best cut list, and the certificates at the least and the greatest of them.
#[derive(Clone, Drop)]
pub struct Stretch {
    /// The least penalty.
    pub from: i128,
    /// The greatest penalty.
    pub to: i128,
    /// The certificate for the least penalty.
    pub first: Cert,
    /// The certificate for the greatest penalty.
    pub last: Cert,
}

/// A list of stretches.
pub type Stretches = line_text::Items<Stretch>;

/// An equal stretch of its own. Takes the time of [`Cert::copy`].
impl Duplicate for Stretch {
    fn copy(&self, _alloc: Global) -> Result<Stretch, NoMemory> {
        self.clone()
    }
}
