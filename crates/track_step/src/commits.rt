//! The requests that declare a commit and retract a run.
ghost use Rattle.std.specs.Prelude.{◌≡◌, IfOk, OnErr};
ghost use Rattle.history_model.specs.{Commits.declarations, Entries.entries_of};
ghost use Rattle.track_model.specs.Forms as forms;
ghost use Rattle.track_model.specs.Tracks.{IsStep};

use crate::NoMemory;
use history_model::{Author, Declaration, Entry};
use line_text::{Duplicate, Name};
use metric_table::Limit;
use request_model::{Answer, Refusal, Reply};
use track_follow::{MachineState, retract_refusal};
use track_model::{commit_law, retract_law};

// What a commit is answered where it adds nothing.
fn commit_refusal(
    track: &MachineState,
    number: u64,
    name: &Name,
) -> Result<Option<Answer>, NoMemory>
    ensures { IfOk result (λ answer. answer
        ≡ forms.commit_refusal (declarations (entries_of track.now.history)) number name.now) }
{
    if let Some(same) = track.commits().with_number(number) {
        if same.name == *name {
            return Ok(Some(Answer::Duplicate { step: same.step }));
        }
        return Ok(Some(taken_by(track, same)?));
    }
    if let Some(other) = track.commits().with_name(name) {
        return Ok(Some(taken_by(track, other)?));
    }
    Ok(None)
}

fn taken_by(track: &MachineState, other: &Declaration) -> Result<Answer, NoMemory>
    ensures { IfOk result (λ answer. answer ≡ forms.taken_by other.now) }
{
    Ok(Answer::Refused(Refusal::CommitTaken {
        number: other.number,
        name: other.name.copy(track.alloc())?,
    }))
}

/// `commit M NUMBER NAME`
pub fn commit(
    track: &mut MachineState,
    author: Author,
    number: u64,
    name: &Name,
) -> Result<Reply, NoMemory>
    ensures step { IfOk result (λ reply. IsStep track.old author
        (forms.commit (entries_of track.old.history) number name.now) track.new reply) }
    ensures same { OnErr result (track.new ≡ track.old) }
{
    commit_law();
    track.history_law();
    if let Some(answer) = commit_refusal(track, number, name)? {
        return Ok(track.told(answer));
    }
    if track.commits().len() as u64 >= Limit::Commits.most() {
        return Ok(track.told(Answer::Refused(Refusal::Full(Limit::Commits))));
    }
    if track.len() >= Limit::Steps.most() {
        return Ok(track.told(Answer::Refused(Refusal::Full(Limit::Steps))));
    }
    let answer = Answer::Commit {
        number,
        name: name.copy(track.alloc())?,
    };
    let name = name.copy(track.alloc())?;
    let step = track.add(author, Entry::Commit { number, name }, 0)?;
    Ok(Reply { step, answer })
}

/// `retract M RUN`
pub fn retract(track: &mut MachineState, author: Author, run: &Name) -> Result<Reply, NoMemory>
    ensures step { IfOk result (λ reply. IsStep track.old author
        (forms.retract (entries_of track.old.history) run.now) track.new reply) }
    ensures same { OnErr result (track.new ≡ track.old) }
{
    retract_law();
    track.history_law();
    if let Some(answer) = retract_refusal(track, run) {
        return Ok(track.told(answer));
    }
    if track.len() >= Limit::Steps.most() {
        return Ok(track.told(Answer::Refused(Refusal::Full(Limit::Steps))));
    }
    let answer = Answer::Retracted {
        run: run.copy(track.alloc())?,
    };
    let run = run.copy(track.alloc())?;
    let step = track.add(author, Entry::Retract { run }, 0)?;
    Ok(Reply { step, answer })
}
