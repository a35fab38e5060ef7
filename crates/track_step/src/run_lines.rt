//! The list of runs.
ghost use Rattle.std.specs.Prelude.{◌≡◌, All, IfOk, IsSome, map};
ghost use Rattle.history_model.specs.{Commits.name_in, Entries.entries_of};
ghost use Rattle.track_model.specs.Forms as forms;
ghost use Rattle.track_model.specs.Replies.{reply_of};
ghost use Rattle.sample_store.specs.declared.store.Stored.{Stored};
ghost use Rattle.track_step.specs.Lines.{line_of};

use crate::NoMemory;
use history_model::runs_law;
use line_text::Duplicate;
use order_index::OrderIndex;
use request_model::{Answer, Reply, RunLine, Runs};
use sample_store::Stored;
use std::alloc::Global;
use track_follow::MachineState;

/// `runs M`: adds nothing. Linear in the number of runs.
pub fn runs(track: &MachineState) -> Result<Reply, NoMemory>
    ensures { IfOk result (λ reply. reply
        ≡ reply_of (entries_of track.now.history) (forms.runs (entries_of track.now.history))) }
{
    runs_law();
    track.history_law();
    let lines = lines_of(
        track.alloc(),
        track.commits(),
        track.stored_runs().as_slice(),
    )?;
    Ok(track.told(Answer::Runs { runs: lines }))
}

// The lines of some runs, whose commits are declared.
fn lines_of(alloc: Global, commits: &OrderIndex, runs: &[Stored]) -> Result<Runs, NoMemory>
    requires { All (λ (s : Stored). IsSome (name_in s.run.commit commits.now)) runs.now }
    ensures { IfOk result (λ lines. lines ≡ map (line_of commits.now) runs.now) }
{
    let mut lines = Vec::new(alloc);
    for stored in runs {
        lines.push(line(alloc, commits, stored)?)?;
    }
    Ok(Runs::of(lines))
}

fn line(alloc: Global, commits: &OrderIndex, stored: &Stored) -> Result<RunLine, NoMemory>
    requires { IsSome (name_in stored.now.run.commit commits.now) }
    ensures { IfOk result (λ line. line ≡ line_of commits.now stored.now) }
{
    let Some(commit) = commits.name_of(stored.run.commit) else {
        unreachable!();
    };
    Ok(RunLine {
        run: stored.run.run.copy(alloc)?,
        commit: commit.copy(alloc)?,
        samples: stored.run.samples.len() as u64,
        live: stored.retracted.is_none(),
    })
}
