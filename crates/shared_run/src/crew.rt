//! The scripts of a run, and its workers beside them.
ghost use Rattle.std.specs.{Prelude.{◌≤◌, length}, List.{AllByRecursion, AllZip}};
ghost use Rattle.worker_crew.specs.{Players.{CanPlay, Plays}, Workers.{HaveWorked, IsSeated, Recomputes}};

use std::sync::Wait;
use std::thread::Threads;
use track_outside::{Gate, Runner, Sink, Source};
use worker_crew::{Ended, Player, RoomWorker, work_beside};

// Plays the scripts at once, and beside them has the workers work, each that bisects with the runner in its place. Returns when
// all have ended; runners behind the last worker stay as they are.
pub(crate) fn run_crew<
    's,
    'w,
    R: Threads + Wait + Sync,
    I: Source + Send + Drop,
    O: Sink + Send + Drop,
    N: Runner + Send,
    G: Gate,
>(
    rt: &R,
    ended: &Ended,
    players: &mut Vec<Player<'s, R, I, O, G>>,
    recomputers: &mut Vec<RoomWorker<'w, G>>,
    bisectors: &mut Vec<RoomWorker<'w, G>>,
    runners: &mut [N],
)
    requires players { AllByRecursion (CanPlay O.Sink) players.old.items }
    requires recomputers { AllByRecursion IsSeated recomputers.old.items }
    requires bisectors { AllByRecursion IsSeated bisectors.old.items }
    requires enough { length bisectors.old.items ≤ length runners.old }
    ensures played { AllZip (Plays I.Source O.Sink) players.old.items players.new.items }
    ensures recompute { AllZip Recomputes recomputers.old.items recomputers.new.items }
    ensures bisect { HaveWorked N.Runner bisectors.old.items runners.old
        bisectors.new.items runners.new }
{
    work_beside(rt, ended, players, recomputers, bisectors, runners);
}
