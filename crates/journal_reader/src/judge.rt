//! What says which entries of a history are allowed.
ghost use Rattle.std.specs.Prelude.{IfOk};
ghost use Rattle.history_model.specs.Entries.{entries_of};
ghost use Rattle.journal_reader.specs.Judging.{AreAllowed};

use crate::NoMemory;
use history_model::Placed;
use line_text::Name;
use std::alloc::Global;

/// What says how many first entries of a machine's history are allowed.
pub trait Judge {
    /// How many first entries are allowed, each after those before it.
    fn count_allowed(
        &self,
        alloc: Global,
        machine: &Name,
        history: &[Placed],
    ) -> Result<u64, NoMemory>
        ensures { IfOk result (AreAllowed (entries_of history.now)) };
}
