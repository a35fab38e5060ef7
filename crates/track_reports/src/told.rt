//! What is told of a series' last publication: its changes, and its certificate.
ghost use Rattle.std.specs.Prelude.{◌≡◌, All, IfOk, map};
ghost use Rattle.history_model.specs.Entries.{entries_of};
ghost use Rattle.track_model.specs.{Outcomes.Outcome, Publishing.{ChangesComeTo, VerifyComesTo}, Tracks.IsTold};
ghost use Rattle.track_reports.specs.Lines.{named_by, HasNames};

use crate::NoMemory;
use change_list::Change;
use history_model::runs_law;
use line_text::{Duplicate, Name};
use machine_state::MachineState;
use order_index::OrderIndex;
use request_model::{Answer, Boxed, NamedChange, NamedChanges, Reply};
use std::alloc::Global;

// A change with its commits by name.
fn named(alloc: Global, commits: &OrderIndex, change: &Change) -> Result<NamedChange, NoMemory>
    requires { HasNames commits.now change.now }
    ensures { IfOk result (λ made. made ≡ named_by commits.now change.now) }
{
    let Some(before) = commits.name_of(change.before) else {
        unreachable!();
    };
    let Some(after) = commits.name_of(change.after) else {
        unreachable!();
    };
    Ok(NamedChange {
        before: before.copy(alloc)?,
        after: after.copy(alloc)?,
        left: change.left,
        right: change.right,
        worse: change.worse,
    })
}

// Some changes with their commits by name.
fn all_named(
    alloc: Global,
    commits: &OrderIndex,
    changes: &[Change],
) -> Result<NamedChanges, NoMemory>
    requires { All (HasNames commits.now) changes.now }
    ensures { IfOk result (λ made. made ≡ map (named_by commits.now) changes.now) }
{
    let mut made = NamedChanges::new(alloc);
    for change in changes {
        made.push(named(alloc, commits, change)?)?;
    }
    Ok(made)
}

/// `changes M TEST METRIC`: the changes of the series' last publication; adds nothing. Linear in its values, but for
/// look-ups.
pub fn changes(track: &MachineState, test: &Name, metric: &Name) -> Result<Reply, NoMemory>
    ensures { IfOk result (λ reply. (o : Outcome)
        × ChangesComeTo (entries_of track.now.history)
        (record { test = test.now; metric = metric.now }) o
        × IsTold track.now o reply) }
{
    runs_law();
    track.history_law();
    let done = match track.last_published(test, metric) {
        Ok(done) => done,
        Err(why) => return Ok(track.told(Answer::Refused(why))),
    };
    let version = done.version;
    let found = change_list::changes(track.alloc(), done)?;
    let items = all_named(track.alloc(), track.commits(), found.as_slice())?;
    let metric = metric.copy(track.alloc())?;
    Ok(track.told(Answer::Changes {
        version,
        metric,
        items,
    }))
}

/// `verify M TEST METRIC`: the certificate of the series' last publication; adds nothing. Linear in its points.
pub fn verify(track: &MachineState, test: &Name, metric: &Name) -> Result<Reply, NoMemory>
    ensures { IfOk result (λ reply. (o : Outcome)
        × VerifyComesTo (entries_of track.now.history)
        (record { test = test.now; metric = metric.now }) o
        × IsTold track.now o reply) }
{
    let done = match track.last_published(test, metric) {
        Ok(done) => done,
        Err(why) => return Ok(track.told(Answer::Refused(why))),
    };
    let version = done.version;
    let cert = done.cert.copy(track.alloc())?;
    let cert = Boxed::new(track.alloc(), cert)?;
    Ok(track.told(Answer::Verified { version, cert }))
}
