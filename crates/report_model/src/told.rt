//! Where a bisection stands, by name.

use crate::NoMemory;
use line_text::{Duplicate, Name};
use std::alloc::Global;

/// Where a bisection stands, with its commits by name.
#[derive(Clone, Debug, Drop)]
pub enum Told {
    /// It is open, and asks for a test of this commit.
    Asks(Name),
    /// It found two neighbours.
    Found {
        /// The last good commit.
        lo: Name,
        /// The first bad one.
        hi: Name,
    },
    /// It ended at a commit of which the test could say nothing.
    Undecided {
        /// The commit.
        commit: Name,
        /// The status that the test gave.
        status: u8,
    },
    /// It ended at a commit whose test could not be had.
    Faulted(Name),
}

/// An equal value of its own. Constant time.
impl Duplicate for Told {
    fn copy(&self, _alloc: Global) -> Result<Told, NoMemory> {
        self.clone()
    }
}
