//! What the limits say of a run more.
ghost use Rattle.std.specs.Prelude.{◌≡◌, IfOk, None};
ghost use Rattle.history_model.specs.{Entries.entries_of, Runs.retracted};
ghost use Rattle.track_replay.specs.Verdicts.{IsVerdict};

use crate::NoMemory;
use crate::verdict::Verdict;
use history_model::{Run, accept_law, within_law};
use machine_state::MachineState;
use metric_table::Limit;

/// What the limits say of the run, whose name is new.
pub fn room_for(track: &MachineState, run: &Run) -> Result<Verdict, NoMemory>
    requires { retracted run.now.run (entries_of track.now.history) ≡ None }
    ensures { IfOk result (λ verdict. IsVerdict (entries_of track.now.history) run.now verdict) }
{
    accept_law();
    within_law();
    track.history_law();
    if track.len() >= Limit::Steps.most() {
        return Ok(Verdict::Full(Limit::Steps));
    }
    if track.run_count() >= Limit::Runs.most() {
        return Ok(Verdict::Full(Limit::Runs));
    }
    run.samples.limits();
    if track.samples_before() + run.samples.len() as u64 > Limit::Samples.most() {
        return Ok(Verdict::Full(Limit::Samples));
    }
    let demand = track.asked(run)?;
    if track.known_count() + demand.new as u64 > Limit::Series.most() {
        return Ok(Verdict::Full(Limit::Series));
    }
    if !demand.samples_fit {
        return Ok(Verdict::Full(Limit::SeriesSamples));
    }
    if !demand.positions_fit {
        return Ok(Verdict::Full(Limit::Positions));
    }
    Ok(Verdict::Fits(demand.new as u64))
}
