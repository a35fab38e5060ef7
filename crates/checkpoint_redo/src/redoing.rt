//! Redoing of tables.
ghost use Rattle.std.specs.Prelude.{◌≡◌, ◌+◌, ◌-◌, ◌≤◌, length, take, OnOk, OnErr};
ghost use Rattle.segment_model.specs.Values.{values_by_position};
ghost use Rattle.pelt_core.specs.Seen.{table_of};
ghost use Rattle.point_list.specs.Places.{common};

use pelt_core::{Steps, Table};
use point_list::common_prefix;
use segment_cost::{FrozenPoints, NoMemory, Square};
use segment_model::values_law;
use std::sync::ledger::Ledger;

/// Makes the table of the old points that of the new ones: one step for each position past those that both have in
/// common at their front, by commits and values.
///
/// Linear in the values of that front, and for each step what advancing takes. The only error is want of memory; the
/// table is then that of as many first positions of the new points as it has.
pub fn redo<L: Ledger>(
    table: &mut Table<Square>,
    old: &FrozenPoints,
    new: &FrozenPoints,
    steps: &mut Steps<L>,
) -> Result<(), NoMemory>
    requires stands { table.old.positions ≡ values_by_position old.now }
    ensures ok { OnOk result
        (table.new ≡ table_of (values_by_position new.now) table.old.penalty table.old.length) }
    ensures err { OnErr result (table.new ≡ table_of
        (take (length table.new.positions) (values_by_position new.now)) table.old.penalty
        table.old.length) }
    ensures steps { OnOk result
        (steps.new ≡ steps.old + (length new.now - common old.now new.now)) }
{
    let front = common_prefix(old, new);
    redo_from(table, front, new, steps)
}

/// As [`redo`], for a caller that knows how many first positions of the table are the first of the new points.
pub fn redo_from<L: Ledger>(
    table: &mut Table<Square>,
    front: usize,
    new: &FrozenPoints,
    steps: &mut Steps<L>,
) -> Result<(), NoMemory>
    requires there { front ≤ length table.old.positions }
    requires within { front ≤ length new.now }
    requires first { take front table.old.positions ≡ take front (values_by_position new.now) }
    ensures ok { OnOk result
        (table.new ≡ table_of (values_by_position new.now) table.old.penalty table.old.length) }
    ensures err { OnErr result (table.new ≡ table_of
        (take (length table.new.positions) (values_by_position new.now)) table.old.penalty
        table.old.length) }
    ensures steps { OnOk result (steps.new ≡ steps.old + (length new.now - front)) }
{
    values_law();
    new.limits();
    table.rewind(front);
    for i in front..new.len() {
        table.advance(new.values(i), steps)?;
    }
    Ok(())
}
