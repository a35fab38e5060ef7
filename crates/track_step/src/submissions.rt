//! Submissions of runs.
ghost use Rattle.std.specs.Prelude.{◌≡◌, ℕ, List, IfOk, OnErr, option_map, unwrap_or};
ghost use Rattle.history_model.specs.{Commits.number_of, Entries.entries_of};
ghost use Rattle.track_model.specs.Forms as forms;
ghost use Rattle.history_model.specs.Runs.{accepted};
ghost use Rattle.track_model.specs.Tracks.{IsStep};
ghost use Rattle.track_step.specs.Told.{told_of};

use crate::NoMemory;
use history_model::{Author, Entry, Run, accept_law, retraction_law, within_law};
use line_text::{Duplicate, Name, Text};
use request_model::{Answer, Refusal, Reply};
use sample_model::Samples;
use sample_store::Accepted;
use track_follow::{MachineState, Verdict, room_for};

// The run that a submission at a commit of that number would add; at 0 where the commit has none.
fn submitted(
    track: &MachineState,
    number: Option<u64>,
    run: &Name,
    samples: &Samples,
) -> Result<Run, NoMemory>
    ensures { IfOk result (λ new. new ≡ record {
      run = run.now;
      commit = unwrap_or number 0;
      samples = samples.now;
    }) }
{
    Ok(Run {
        run: run.copy(track.alloc())?,
        commit: number.unwrap_or(0),
        samples: samples.copy(track.alloc())?,
    })
}

// What is said of a run that was judged so, where it is no new one.
fn told_of(judged: Accepted) -> Option<Answer>
    ensures { result ≡ told_of judged }
{
    match judged {
        Accepted::Duplicate(step) => Some(Answer::Duplicate { step }),
        Accepted::Clash(step) => Some(Answer::Refused(Refusal::IdentityClash(step))),
        Accepted::New => None,
        Accepted::Full(_) => None,
    }
}

// What is said of a run whose name was accepted before.
fn told_again(track: &MachineState, new: &Run) -> Option<Answer>
    ensures { result ≡ option_map (forms.told_again new.now)
        (accepted new.now.run (entries_of track.now.history)) }
{
    told_of(track.stored_runs().judge(new))
}

// Whether a body states another machine.
fn states_another(track: &MachineState, stated: &Option<Name>) -> bool
    ensures { result ≡ forms.states_another track.now.machine stated.now }
{
    match stated {
        Some(stated) => *stated != *track.machine(),
        None => false,
    }
}

// What a submission at a commit of that number is answered where it adds nothing and passes no limit.
fn submit_refusal(
    track: &MachineState,
    number: Option<u64>,
    new: &Run,
    stated: &Option<Name>,
) -> Result<Option<Answer>, NoMemory>
    ensures { (commit : List ℕ) → number ≡ number_of commit (entries_of track.now.history)
        → IfOk result (λ answer. answer
        ≡ forms.submit_refusal (entries_of track.now.history) track.now.machine
        commit new.now stated.now) }
{
    if states_another(track, stated) {
        let member = Text::of(track.alloc(), "machine.name")?;
        return Ok(Some(Answer::Refused(Refusal::NotReport { rule: 6, member })));
    }
    if number.is_none() {
        return Ok(Some(Answer::Refused(Refusal::UnknownCommit)));
    }
    Ok(told_again(track, new))
}

/// `submit M COMMIT RUN`, with a body that was read.
pub fn submit(
    track: &mut MachineState,
    author: Author,
    commit: &Name,
    run: &Name,
    samples: &Samples,
    ignored: u64,
    stated: &Option<Name>,
) -> Result<Reply, NoMemory>
    ensures step { IfOk result (λ reply. IsStep track.old author
        (forms.submit (entries_of track.old.history) track.old.machine
        commit.now run.now samples.now ignored stated.now) track.new reply) }
    ensures same { OnErr result (track.new ≡ track.old) }
{
    accept_law();
    within_law();
    retraction_law();
    track.history_law();
    samples.limits();
    let number = track.number_of(commit);
    let new = submitted(track, number, run, samples)?;
    if let Some(answer) = submit_refusal(track, number, &new, stated)? {
        return Ok(track.told(answer));
    }
    let more = match room_for(track, &new)? {
        Verdict::Full(limit) => {
            return Ok(track.told(Answer::Refused(Refusal::Full(limit))));
        }
        Verdict::Fits(more) => more,
    };
    let answer = Answer::Accepted {
        run: run.copy(track.alloc())?,
        samples: samples.len() as u64,
        ignored,
    };
    let step = track.add(author, Entry::Accept { run: new }, more)?;
    Ok(Reply { step, answer })
}
