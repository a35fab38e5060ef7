//! The scripts and the workers of a run, at once on its machines.
ghost use Rattle.std.specs.Prelude.{◌≡◌, ◌≤◌, length, IfOk, IfErr, OnErr};
ghost use Rattle.command_words.specs.Plans.{AreScripts};
ghost use Rattle.worker_crew.specs.{Rooms.{IsFirst, IsPassOf}, Seats.AreDifferent};
ghost use Rattle.shared_run.specs.{Crews.{RanCrew, SplitsFor, word_of}, Ran.NotBegun};

use crate::crew::run_crew;
use crate::stop::RunStop;
use command_words::PlayPlan;
use script_files::{close_scripts, open_scripts};
use script_loop::Stop;
use std::alloc::{AllocError, Global};
use std::sync::Wait;
use std::thread::Threads;
use track_outside::{Files, Gate, Runner};
use worker_crew::{
    Ended, Room, RoomPass, Staff, crew_law, leave, leave_workers, seat_scripts, seat_workers,
    split_passes,
};

/// Runs the scripts at once, and beside them the plan's workers, each with a pass of its own that is joined back; and each worker
/// that bisects with the runner in its place. Says how each script ended, and whether a worker met want of memory. All memory
/// that this takes is taken before the first script is opened: once all are open nothing keeps them from being run. The flag
/// tells the workers when the scripts have ended; it is set then.
pub fn run_players<'s, R: Threads + Wait + Sync, F: Files, N: Runner + Send, G: Gate>(
    rt: &'s R,
    alloc: Global,
    plan: &'s PlayPlan<'_>,
    room: &'s Room,
    flag: &'s Ended,
    pass: &mut RoomPass,
    files: &mut F,
    runners: &mut [N],
    gate: &'s G,
) -> Result<(Vec<Result<(), Stop>>, bool), RunStop>
    requires room { IsPassOf room.now pass.old × IsFirst pass.old }
    requires different { AreDifferent room.now }
    requires scripts { AreScripts plan.now.scripts }
    requires runners { plan.now.bisect ≤ length runners.old }
    ensures room { IsPassOf room.now pass.new × IsFirst pass.new }
    ensures ran { IfOk result (λ left. RanCrew F.Files F.Input.Source F.Output.Sink N.Runner
        plan.now room.now pass.old pass.new files.old files.new
        runners.old runners.new left.0.items) }
    ensures early { IfErr result (NotBegun F.Files plan.now.scripts files.old files.new) }
    ensures unasked { OnErr result (runners.new ≡ runners.old) }
    ensures as_many { length runners.new ≡ length runners.old }
{
    let count = plan.scripts().len();
    let split = split_for(alloc, plan, room, pass)?;
    let (passes, of_recompute, of_bisect) = split;
    let mut players = Vec::with_capacity(alloc, count)?;
    let mut recomputers = Vec::with_capacity(alloc, of_recompute.len())?;
    let mut bisectors = Vec::with_capacity(alloc, of_bisect.len())?;
    let mut ended = Vec::with_capacity(alloc, count)?;
    let mut left = Vec::with_capacity(alloc, count)?;
    let staff = Staff {
        alloc,
        room,
        ended: flag,
        gate,
        test: word_in(plan),
    };
    let opened = open_scripts(alloc, files, plan.scripts())?;
    seat_scripts(rt, alloc, room, gate, passes, opened, &mut players);
    seat_workers(&staff, of_recompute, &mut recomputers);
    seat_workers(&staff, of_bisect, &mut bisectors);
    crew_law::<N>();
    run_crew(
        rt,
        flag,
        &mut players,
        &mut recomputers,
        &mut bisectors,
        runners,
    );
    leave(room, pass, players, &mut ended, &mut left);
    let one = leave_workers(room, pass, recomputers);
    let other = leave_workers(room, pass, bisectors);
    close_scripts(files, left);
    Ok((ended, one | other))
}

// Passes for the scripts and for the workers of each kind.
fn split_for(
    alloc: Global,
    plan: &PlayPlan<'_>,
    room: &Room,
    pass: &mut RoomPass,
) -> Result<(Vec<RoomPass>, Vec<RoomPass>, Vec<RoomPass>), AllocError>
    requires room { IsPassOf room.now pass.old × IsFirst pass.old }
    ensures room { IsPassOf room.now pass.new × IsFirst pass.new }
    ensures ok { IfOk result (λ made. SplitsFor plan.now room.now pass.old pass.new
        made.0.items made.1.items made.2.items) }
    ensures few { IfOk result (λ made. (length made.1.items ≤ 255) × (length made.2.items ≤ 255)) }
{
    let passes = split_passes(alloc, room, pass, plan.scripts().len())?;
    let of_recompute = split_passes(alloc, room, pass, usize::from(plan.recompute()))?;
    let of_bisect = split_passes(alloc, room, pass, usize::from(plan.bisect()))?;
    Ok((passes, of_recompute, of_bisect))
}

// The word of the plan's test, which is empty where there is none.
pub(crate) fn word_in<'s>(plan: &'s PlayPlan<'_>) -> &'s str
    ensures { result.now ≡ word_of plan.now }
{
    match plan.test() {
        Some(word) => word,
        None => "",
    }
}
