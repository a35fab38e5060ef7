//! The passes of several machines' locks, split and joined together.
ghost use Rattle.std.specs.{Prelude.{◌≡◌, ℕ, ◌≤◌, ◌++◌, [], IfOk, OnOk, OnErr, length, map, take, drop}, List.AllZip};
ghost use Rattle.track_room.specs.{Rooms.{HaveGivenMarks, IsFirst, IsPassOf, IsSplitBack, JoinsEach}, Sights.{splitting, split_off}};

use crate::NoMemory;
use crate::machine::{MachineLock, MachinePass};
use std::alloc::Global;

// Splits a pass off each; where one can't be, the passes before it were split.
pub(crate) fn split_each(
    alloc: Global,
    machines: &[MachineLock],
    passes: &mut [MachinePass],
    others: &mut Vec<MachinePass>,
) -> Result<(), NoMemory>
    requires locks { IsPassOf machines.now passes.old }
    requires first { IsFirst passes.old }
    requires none { others.old.items ≡ [] }
    ensures ok { OnOk result ((others.new.items ≡ map split_off passes.old)
        × (passes.new ≡ map splitting passes.old)) }
    ensures marks { OnOk result (HaveGivenMarks passes.old) }
    ensures err { OnErr result ((n : ℕ) × (n ≤ length passes.old)
        × (others.new.items ≡ map split_off (take n passes.old))
        × (passes.new ≡ map splitting (take n passes.old) ++ drop n passes.old)) }
{
    for i in 0..passes.len() {
        others.reserve(1)?;
        let Ok(other) = machines[i].split(alloc, &mut passes[i]) else {
            return Err(NoMemory);
        };
        others.push_reserved(other);
    }
    Ok(())
}

// Splits a pass off each; without memory those that were split are joined back.
pub(crate) fn split_all(
    alloc: Global,
    machines: &[MachineLock],
    passes: &mut [MachinePass],
) -> Result<Vec<MachinePass>, NoMemory>
    requires locks { IsPassOf machines.now passes.old }
    requires first { IsFirst passes.old }
    ensures locks { IsPassOf machines.now passes.new × IsFirst passes.new }
    ensures others { IfOk result (λ others. IsPassOf machines.now others.items) }
    ensures ok { IfOk result (λ others. others.items ≡ map split_off passes.old) }
    ensures passes { OnOk result (passes.new ≡ map splitting passes.old) }
    ensures marks { OnOk result (HaveGivenMarks passes.old) }
    ensures err { OnErr result (AllZip IsSplitBack passes.old passes.new) }
{
    let mut others = Vec::new(alloc);
    if let Err(_) = split_each(alloc, machines, passes, &mut others) {
        join_each(machines, passes, others);
        return Err(NoMemory);
    }
    Ok(others)
}

// Joins the other passes into these, each into the one at its place.
pub(crate) fn join_each(
    machines: &[MachineLock],
    passes: &mut [MachinePass],
    others: Vec<MachinePass>,
)
    requires locks { IsPassOf machines.now passes.old }
    requires first { IsFirst passes.old }
    requires few { length others.items ≤ length passes.old }
    requires others { IsPassOf (take (length others.items) machines.now) others.items }
    ensures locks { IsPassOf machines.now passes.new × IsFirst passes.new }
    ensures joined { JoinsEach passes.old others.items passes.new }
{
    let mut i = 0;
    for other in others {
        machines[i].join(&mut passes[i], other);
        i += 1;
    }
}
