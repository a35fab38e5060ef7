//! A walk along a history says which of its entries are allowed.

use crate::NoMemory;
use crate::laws::along_law;
use crate::walk::Walk;
use history_model::Placed;
use journal_reader::Judge;
use line_text::{Duplicate, Name};
use std::alloc::Global;

/// Says which entries are allowed by adding them.
pub struct ByWalk;

impl Judge for ByWalk {
    fn count_allowed(
        &self,
        alloc: Global,
        machine: &Name,
        history: &[Placed],
    ) -> Result<u64, NoMemory> {
        along_law();
        let mut walk = Walk::new(alloc, machine.copy(alloc)?, history)?;
        while walk.go_on()? {}
        walk.track().history_law();
        Ok(walk.len())
    }
}
