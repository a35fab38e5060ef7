//! The changes of a publication, as a reply lists them.

use line_text::{Duplicate, Items, Name, NoMemory};
use std::alloc::Global;

/// A change at a cut, its commits by name.
#[derive(Clone, Drop)]
pub struct NamedChange {
    /// The last commit before the cut.
    pub before: Name,
    /// The first commit behind it.
    pub after: Name,
    /// The centre of the segment before it.
    pub left: i64,
    /// The centre of the segment behind it.
    pub right: i64,
    /// Whether the centre behind it is worse, by the metric's direction.
    pub worse: bool,
}

/// Changes, in order of their cuts.
pub type NamedChanges = Items<NamedChange>;

/// An equal change of its own. Constant time.
impl Duplicate for NamedChange {
    fn copy(&self, _alloc: Global) -> Result<NamedChange, NoMemory> {
        self.clone()
    }
}
