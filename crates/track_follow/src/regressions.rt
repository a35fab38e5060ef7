//! The forms about regressions.
ghost use Rattle.std.specs.Prelude.{◌≡◌, ◌≤◌, IfOk, OnErr, None, length};
ghost use Rattle.history_model.specs.Entries.{entries_of};
ghost use Rattle.history_model.specs.Regressions as regression;
ghost use Rattle.track_model.specs.Following as following;
ghost use Rattle.track_model.specs.{Outcomes.Outcome, Tracks.IsStep};
ghost use Rattle.track_follow.specs.Raised.{raised_from};

use crate::NoMemory;
use change_list::commits_beside;
use history_model::{Author, Entry, Raised, RegressionEvent};
use line_text::{Duplicate, Name};
use metric_table::Limit;
use regression_state::{State, may_move};
use request_model::{Answer, Refusal, Reply};
use segment_cost::Done;
use std::alloc::Global;
use track_model::{follow_law, steps_law};
use track_replay::{MachineState, state_of};

// Whether a number is one of so many, from 1 on.
fn is_number(count: u64, number: u64) -> bool
    ensures { result ≡ regression.is_number count number }
{
    number >= 1 && number <= count
}

// The change of a number that a finished segmentation shows.
fn raised_from(alloc: Global, done: &Done, change: u64) -> Result<Raised, NoMemory>
    requires from { 1 ≤ change }
    requires to { change ≤ length done.now.cert.cuts }
    ensures { IfOk result (λ raised. raised ≡ raised_from done.now change) }
{
    let beside = commits_beside(done, (change - 1) as usize);
    Ok(Raised {
        test: done.test.copy(alloc)?,
        metric: done.metric.copy(alloc)?,
        before: beside.before,
        after: beside.after,
    })
}

// Why a regression can't move to a state.
fn move_refusal(track: &MachineState, number: u64, to: State) -> Option<Answer>
    ensures { result ≡ following.move_refusal (entries_of track.now.history) number to }
{
    let Some(from) = state_of(track, number) else {
        return Some(Answer::Refused(Refusal::UnknownRegression));
    };
    if !may_move(from, to) {
        return Some(Answer::Refused(Refusal::IllegalMove { from, to }));
    }
    None
}

// The state of a regression that may move.
fn moved_from(track: &MachineState, number: u64, to: State) -> State
    requires { following.move_refusal (entries_of track.now.history) number to ≡ None }
    ensures { result ≡ regression.state_of number (entries_of track.now.history) }
{
    let Some(from) = state_of(track, number) else {
        unreachable!();
    };
    from
}

/// `state M REGRESSION STATE`: moves a regression. Constant time.
pub fn set_state(
    track: &mut MachineState,
    author: Author,
    regression: u64,
    to: State,
) -> Result<Reply, NoMemory>
    ensures step { IfOk result (λ reply. IsStep track.old author
        (following.set_state (entries_of track.old.history) regression to) track.new reply) }
    ensures same { OnErr result (track.new ≡ track.old) }
{
    steps_law();
    follow_law();
    track.history_law();
    if let Some(answer) = move_refusal(track, regression, to) {
        return Ok(track.told(answer));
    }
    if track.len() >= Limit::Steps.most() {
        return Ok(track.told(Answer::Refused(Refusal::Full(Limit::Steps))));
    }
    let from = moved_from(track, regression, to);
    let event = RegressionEvent::Move {
        regression,
        state: to,
    };
    let step = track.add(author, Entry::Regression { event }, 0)?;
    let answer = Answer::Moved {
        regression,
        from,
        to,
    };
    Ok(Reply { step, answer })
}

/// `regress M TEST METRIC CHANGE`: raises a change of the series' last publication, by its number from 1. Constant
/// time, but for look-ups.
pub fn regress(
    track: &mut MachineState,
    author: Author,
    test: &Name,
    metric: &Name,
    change: u64,
) -> Result<Reply, NoMemory>
    ensures step { IfOk result (λ reply. (o : Outcome)
        × following.RegressComesTo (entries_of track.old.history)
        (record { test = test.now; metric = metric.now }) change o
        × IsStep track.old author o track.new reply) }
    ensures same { OnErr result (track.new ≡ track.old) }
{
    steps_law();
    follow_law();
    track.history_law();
    let done = match track.last_published(test, metric) {
        Ok(done) => done,
        Err(why) => return Ok(track.told(Answer::Refused(why))),
    };
    let count = done.cert.cuts.len() as u64;
    if !is_number(count, change) {
        return Ok(track.told(Answer::Refused(Refusal::NoSuchChange(count))));
    }
    if track.len() >= Limit::Steps.most() {
        return Ok(track.told(Answer::Refused(Refusal::Full(Limit::Steps))));
    }
    let raised = raised_from(track.alloc(), done, change)?;
    let regression = track.regressions().len() + 1;
    let event = RegressionEvent::Raise { raised };
    let step = track.add(author, Entry::Regression { event }, 0)?;
    Ok(Reply {
        step,
        answer: Answer::Raised { regression },
    })
}
