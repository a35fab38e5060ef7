//! The runs of a machine, as a reply lists them.

use line_text::{Duplicate, Items, Name, NoMemory};
use std::alloc::Global;

/// A run, as a list of runs has it.
#[derive(Clone, Drop)]
pub struct RunLine {
    /// The run.
    pub run: Name,
    /// The commit that it measured.
    pub commit: Name,
    /// How many samples it has.
    pub samples: u64,
    /// Whether it was not retracted.
    pub live: bool,
}

/// Runs, in order of acceptance.
pub type Runs = Items<RunLine>;

/// An equal line of its own. Constant time.
impl Duplicate for RunLine {
    fn copy(&self, _alloc: Global) -> Result<RunLine, NoMemory> {
        self.clone()
    }
}
