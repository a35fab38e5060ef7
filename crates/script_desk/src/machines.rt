//! Requests, answered on the machine that each is about.
ghost use Rattle.std.specs.{Prelude.{◌≡◌, IfOk, OnErr}, List.AllZip};
ghost use Rattle.track_model.specs.{Counts.Counts, Tracks.IsSameButTables};
ghost use Rattle.script_desk.specs.Sessions.{unknown, Answers};

use crate::NoMemory;
use history_model::Author;
use keep_rows::place_of;
use line_text::Duplicate;
use machine_state::MachineState;
use metric_table::Limit;
use pelt_core::Steps;
use request_model::{Answer, Refusal, Reply, Request};
use std::alloc::Global;
use std::sync::ledger::Ledger;
use track_step::answer;

// Answers a request of a script, and adds what it adds: a machine, or an entry of one; by as many steps as a segmentation
// says.
pub(crate) fn answer_request<L: Ledger>(
    alloc: Global,
    author: Author,
    machines: &mut Vec<MachineState>,
    request: &Request,
    steps: &mut Steps<L>,
) -> Result<Reply, NoMemory>
    ensures answered { IfOk result (λ reply. Answers author machines.old.items request.now
        (record { reply = reply; tracks = machines.new.items })) }
    ensures steps { IfOk result (λ reply. Counts request.now reply.answer steps.old steps.new) }
    ensures left { OnErr result (AllZip IsSameButTables machines.old.items machines.new.items) }
{
    if let Some(i) = place_of(machines, request.machine()) {
        return answer(&mut machines[i], author, request, steps);
    }
    answer_unknown(alloc, machines, request)
}

// Answers a request about a machine that isn't declared: declares it, if that is asked and there are fewer than may be.
fn answer_unknown(
    alloc: Global,
    machines: &mut Vec<MachineState>,
    request: &Request,
) -> Result<Reply, NoMemory>
    ensures ok { IfOk result (λ reply.
        record { reply = reply; tracks = machines.new.items }
        ≡ unknown machines.old.items request.now) }
    ensures err { OnErr result (machines.new.items ≡ machines.old.items) }
{
    let Request::Machine { machine } = request else {
        return Ok(apart(Answer::Refused(Refusal::UnknownMachine)));
    };
    if machines.len() as u64 >= Limit::Machines.most() {
        return Ok(apart(Answer::Refused(Refusal::Full(Limit::Machines))));
    }
    let answer = Answer::Machine {
        machine: machine.copy(alloc)?,
    };
    machines.push(MachineState::new(alloc, machine.copy(alloc)?, false))?;
    Ok(apart(answer))
}

// An answer that names no history.
fn apart(answer: Answer) -> Reply
    ensures { result ≡ record { step = 0; answer = answer } }
{
    Reply { step: 0, answer }
}
