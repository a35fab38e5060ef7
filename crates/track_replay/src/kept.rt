//! Kept entries, added again.
ghost use Rattle.std.specs.Prelude.{◌≡◌, IfOk, OnErr};
ghost use Rattle.history_model.specs.Entries.{entries_of};
ghost use Rattle.history_model.specs.declared.entries.Entry.TheVariants as entry;
ghost use Rattle.machine_state.specs.Made.{IsPlain};
ghost use Rattle.track_replay.specs.Replays.{IsReplayed, IsAllowance, commit_fits, retraction_fits, tuning_fits};

use crate::NoMemory;
use crate::events::{job_allowance, regression_allowance};
use crate::limits::room_for;
use crate::refusals::{retract_refusal, tune_refusal};
use crate::verdict::Verdict;
use history_model::{Author, Entry, Run, accept_law, limits_law, retraction_law, within_law};
use line_text::Name;
use machine_state::{MachineState, tune_law};
use metric_table::Limit;

fn commit_fits(track: &MachineState, number: u64, name: &Name) -> bool
    ensures { result ≡ commit_fits (entries_of track.now.history) number name.now }
{
    track.commits().name_of(number).is_none()
        && track.commits().number_of(name).is_none()
        && (track.commits().len() as u64) < Limit::Commits.most()
        && track.len() < Limit::Steps.most()
}

fn retraction_fits(track: &MachineState, run: &Name) -> bool
    ensures { result ≡ retraction_fits (entries_of track.now.history) run.now }
{
    retract_refusal(track, run).is_none() && track.len() < Limit::Steps.most()
}

fn tuning_fits(track: &MachineState, metric: &Name, penalty: &i128, least: u8) -> bool
    ensures { result ≡ tuning_fits (entries_of track.now.history) metric.now penalty.now least }
{
    tune_refusal(metric, *penalty, least).is_none() && track.len() < Limit::Steps.most()
}

fn run_allowance(track: &MachineState, run: &Run) -> Result<Option<u64>, NoMemory>
    ensures { IfOk result
        (λ more. IsAllowance (entries_of track.now.history) (entry.Accept run.now) more) }
{
    accept_law();
    within_law();
    retraction_law();
    track.history_law();
    run.samples.limits();
    if track.was_accepted(&run.run) {
        return Ok(None);
    }
    if !track.is_declared(run.commit) {
        return Ok(None);
    }
    match room_for(track, run)? {
        Verdict::Full(_) => Ok(None),
        Verdict::Fits(more) => Ok(Some(more)),
    }
}

// How many series the entry, which is no publication, makes known; none where it isn't allowed.
fn allowance(track: &MachineState, entry: &Entry) -> Result<Option<u64>, NoMemory>
    requires { IsPlain entry.now }
    ensures { IfOk result (λ more. IsAllowance (entries_of track.now.history) entry.now more) }
{
    limits_law();
    tune_law();
    track.history_law();
    match entry {
        Entry::Commit { number, name } => {
            let number = *number;
            if commit_fits(track, number, name) {
                return Ok(Some(0));
            }
            Ok(None)
        }
        Entry::Accept { run } => run_allowance(track, run),
        Entry::Retract { run } => {
            if retraction_fits(track, run) {
                return Ok(Some(0));
            }
            Ok(None)
        }
        Entry::Tune {
            metric,
            penalty,
            length,
        } => {
            if tuning_fits(track, metric, penalty.get(), *length) {
                return Ok(Some(0));
            }
            Ok(None)
        }
        Entry::Publish { .. } => unreachable!(),
        Entry::Regression { event } => Ok(regression_allowance(track, event)),
        Entry::Job { event } => job_allowance(track, event),
    }
}

/// Adds a kept entry, which is no publication; false exactly where it isn't allowed after those before it, and then
/// nothing changes.
pub fn replay(track: &mut MachineState, entry: Entry) -> Result<bool, NoMemory>
    requires { IsPlain entry }
    ensures replayed { IfOk result (λ added. IsReplayed track.old entry added track.new) }
    ensures same { OnErr result (track.new ≡ track.old) }
{
    let Some(more) = allowance(track, &entry)? else {
        return Ok(false);
    };
    track.add(Author::Kept, entry, more)?;
    Ok(true)
}
