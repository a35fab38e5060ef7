//! A shared run, from the machines of its store and its list to its journals.
ghost use Rattle.std.specs.Prelude.{◌≡◌, ◌≤◌, length, IfOk, IfErr, OnErr};
ghost use Rattle.metric_table.specs.{Limits.most, declared.limits.Limit.TheVariants.Machines};
ghost use Rattle.command_words.specs.Plans.{AreScripts};
ghost use Rattle.keep_rows.specs.Machines.{AreDifferent, names_of};
ghost use Rattle.shared_run.specs.{Crews.{AreNew, RanIn, asked_by}, Endings.{EndsAsDue, EndsRun}, Ran.NotRun};

use crate::finishing::{both, finish};
use crate::leaving::{histories_law, leave_journals};
use crate::machines::first_machines;
use crate::run::run_players;
use crate::stop::{RunStop, deciding_stop};
use command_words::PlayPlan;
use keep_rows::{Loaded, rows_law};
use machine_state::MachineState;
use request_reader::reading_law;
use script_loop::Stop;
use std::alloc::Global;
use std::sync::Wait;
use std::thread::Threads;
use track_outside::{Files, Gate, Keeper, Runner};
use worker_crew::{Ended, Room, crew_law, joining_law, run_law, unclaimed};

/// Runs the plan's scripts at once, and beside them its workers, on the machines of its store and its list; then does what the
/// workers left, as the first of each kind; writes the journals of the machines, and adds their new rows to the store, where
/// one is named and nothing stopped.
///
/// Each script and each worker runs in a thread of its own, if one can be had, and after the others else. What the rows, the
/// list and the scripts' bytes show comes, unless memory is wanting or an object fails.
pub fn run_scripts<R: Threads + Wait + Sync, F: Files, K: Keeper, N: Runner + Send, G: Gate>(
    rt: &R,
    alloc: Global,
    plan: &PlayPlan<'_>,
    out: &mut F::Output,
    files: &mut F,
    keeper: &mut K,
    runners: &mut [N],
    gate: &G,
) -> Result<(), RunStop>
    requires scripts { AreScripts plan.now.scripts }
    requires enough { plan.now.bisect ≤ length runners.old }
    requires new { AreNew N.Runner runners.old }
    ensures as_many { length runners.new ≡ length runners.old }
    ensures ends { EndsRun
        (record { files = F.Files; input = F.Input.Source; out = F.Output.Sink; keeper = K.Keeper })
        plan.now (asked_by N.Runner runners.old runners.new)
        (record { files = files.old; out = out.old; keeper = keeper.old })
        (record { files = files.new; out = out.new; keeper = keeper.new }) result }
    ensures complete { EndsAsDue
        (record { files = F.Files; input = F.Input.Source; out = F.Output.Sink; keeper = K.Keeper })
        plan.now
        (record { files = files.old; out = out.old; keeper = keeper.old })
        (record { files = files.new; out = out.new; keeper = keeper.new }) result }
{
    reading_law();
    rows_law();
    let Loaded { states, version } = match first_machines(alloc, plan, keeper) {
        Ok(loaded) => loaded,
        Err(why) => return Err(why),
    };
    let (ended, journals, full) = match run_machines(
        rt, alloc, plan, states, files, runners, gate,
    ) {
        Ok(left) => left,
        Err(why) => return Err(why),
    };
    joining_law();
    crew_law::<N>();
    run_law();
    let later = leave_journals(
        alloc,
        plan.store(),
        version,
        full,
        &ended,
        &journals,
        out,
        keeper,
    );
    deciding_stop(&ended, later)
}

// Runs the scripts and the workers on these machines, and does what the workers left; gives how each script ended, the machines
// with all that was added, and whether there was memory for all that workers do.
fn run_machines<R: Threads + Wait + Sync, F: Files, N: Runner + Send, G: Gate>(
    rt: &R,
    alloc: Global,
    plan: &PlayPlan<'_>,
    machines: Vec<MachineState>,
    files: &mut F,
    runners: &mut [N],
    gate: &G,
) -> Result<(Vec<Result<(), Stop>>, Vec<MachineState>, bool), RunStop>
    requires few { length machines.items ≤ most Machines }
    requires different { AreDifferent (names_of machines.items) }
    requires scripts { AreScripts plan.now.scripts }
    requires enough { plan.now.bisect ≤ length runners.old }
    ensures ran { IfOk result (λ left. RanIn F.Files F.Input.Source F.Output.Sink N.Runner
        plan.now machines.items files.old files.new
        runners.old runners.new left.0.items left.1.items left.2) }
    ensures early { IfErr result (NotRun F.Files plan.now.scripts files.old files.new) }
    ensures unasked { OnErr result (runners.new ≡ runners.old) }
    ensures as_many { length runners.new ≡ length runners.old }
{
    let Ok(journals) = Vec::with_capacity(alloc, machines.len()) else {
        return Err(RunStop::NoMemory);
    };
    let Ok(states) = unclaimed(alloc, machines) else {
        return Err(RunStop::NoMemory);
    };
    let Ok((room, mut pass)) = Room::new(alloc, states) else {
        return Err(RunStop::NoMemory);
    };
    let flag = Ended::new();
    let (ended, wanting) = match run_players(
        &*rt, alloc, &*plan, &room, &flag, &mut pass, files, runners, &*gate,
    ) {
        Ok(left) => left,
        Err(why) => return Err(why),
    };
    joining_law();
    crew_law::<N>();
    let Ok(left) = room.close(alloc, pass) else {
        unreachable!()
    };
    let done = finish(alloc, plan, left, journals, runners);
    let (journals, full) = done;
    histories_law(&journals);
    Ok((ended, journals, both(full, !wanting)))
}
