//! The answer to any request about a machine.
ghost use Rattle.std.specs.Prelude.{◌≡◌, IfOk, OnErr, false};
ghost use Rattle.history_model.specs.Entries.{entries_of};
ghost use Rattle.track_model.specs.{Counts.{Counts, is_segment}, Outcomes.Outcome, Tracks.{ComesTo, IsAnswered, IsSameButTables, IsStep}};
ghost use Rattle.request_model.specs.Requests.{machine_of};

use crate::NoMemory;
use crate::commits::{commit, retract};
use crate::run_lines::runs;
use crate::submissions::submit;
use history_model::Author;
use line_text::Duplicate;
use pelt_core::Steps;
use request_model::{Answer, Reply, Request};
use std::sync::ledger::Ledger;
use track_follow::{MachineState, answer_job, bisect, regress, resume, set_state};
use track_penalties::{calibrate, tune};
use track_reports::{changes, report, verify};
use track_series::segment;

/// Answers a request about this machine: `segment` by the steps that it takes, any other by [`step`].
pub fn answer<L: Ledger>(
    track: &mut MachineState,
    author: Author,
    request: &Request,
    steps: &mut Steps<L>,
) -> Result<Reply, NoMemory>
    requires { machine_of request.now ≡ track.old.machine }
    ensures answered { IfOk result (λ reply.
        IsAnswered track.old author request.now track.new reply) }
    ensures steps { IfOk result (λ reply.
        Counts request.now reply.answer steps.old steps.new) }
    ensures left { OnErr result (IsSameButTables track.old track.new) }
{
    if let Request::Segment { test, metric, .. } = request {
        return segment(track, author, test, metric, steps);
    }
    step(track, author, request)
}

/// Answers a request about this machine that segments nothing.
pub fn step(track: &mut MachineState, author: Author, request: &Request) -> Result<Reply, NoMemory>
    requires asked { machine_of request.now ≡ track.old.machine }
    requires plain { is_segment request.now ≡ false }
    ensures step { IfOk result (λ reply. (o : Outcome)
        × ComesTo (entries_of track.old.history) 0 request.now o
        × IsStep track.old author o track.new reply) }
    ensures same { OnErr result (track.new ≡ track.old) }
{
    match request {
        Request::Machine { machine } => {
            let machine = machine.copy(track.alloc())?;
            Ok(track.told(Answer::Machine { machine }))
        }
        Request::Commit { number, name, .. } => commit(track, author, *number, name),
        Request::Submit {
            commit,
            run,
            samples,
            ignored,
            stated,
            ..
        } => submit(track, author, commit, run, samples, *ignored, stated),
        Request::Retract { run, .. } => retract(track, author, run),
        Request::Tune {
            metric,
            penalty,
            length,
            ..
        } => tune(track, author, metric, *penalty, *length),
        Request::Calibrate {
            test,
            metric,
            factor,
            ..
        } => calibrate(track, author, test, metric, *factor),
        Request::Segment { .. } => unreachable!(),
        Request::Changes { test, metric, .. } => changes(track, test, metric),
        Request::Verify { test, metric, .. } => verify(track, test, metric),
        Request::Runs { .. } => runs(track),
        Request::Regress {
            test,
            metric,
            change,
            ..
        } => regress(track, author, test, metric, *change),
        Request::SetState {
            regression,
            state,
            ..
        } => set_state(track, author, *regression, *state),
        Request::Bisect { lo, hi, .. } => bisect(track, author, lo, hi),
        Request::Answer {
            job,
            commit,
            status,
            ..
        } => answer_job(track, author, *job, commit, *status),
        Request::Resume { job, .. } => resume(track, author, *job),
        Request::Job { job, .. } => track_follow::job(track, *job),
        Request::Report { json, .. } => report(track, *json),
    }
}
