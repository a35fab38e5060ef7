//! `hunt`: a search by rounds of tests that run at once.
ghost use Rattle.std.specs.Prelude.{◌≡◌, ◌≢◌, ◌≤◌, ◌⊎◌, All, length, IfOk, IfSome, IfNone};
ghost use Rattle.command_words.specs.{declared.command.Command.TheVariants.Hunt, declared.command.HuntPlan.HuntPlan, Commands.{AreNoCommand, IsSpelled}, Texts.texts};
ghost use Rattle.tracker_top.specs.{declared.status.Status.Status, Endings.IsTold, Hunts.{AreAsBefore, EndsHunt, HuntsAsDue}, Plays.IsNewRunner, Statuses.AsksHunt};

use crate::printing::put_status;
use crate::status::Status;
use command_words::{Command, HuntPlan, command_of, one_command_law};
use commit_lines::one_stop_law;
use hunt_command::hunt_commits;
use std::alloc::Global;
use std::sync::Wait;
use std::thread::Threads;
use track_outside::{Files, NoMemory, Runner};

/// Searches two neighbouring commits, the first of them good and the second bad, by rounds of tests, and answers how that ends.
///
/// `hunt K --test WORD`, with a number from 1 to 8, reads names of commits from the input, one to a line, the first stated
/// good and the last one bad. Each round asks at most K commits at once, each of the runner in its place, which is asked the
/// word and the commit, and spreads them evenly over those that may still be the answer. The status 0 says that a commit is
/// good, 125 that it can't be tested and is passed over, 1 to 127 else that it is bad; from 128 on, and where an ask fails,
/// the search ends without an answer. The line of what it came to goes to `out`, the status' line to `err`; where that
/// fails the status stands.
///
/// With m commits to be decided a round leaves at most m / (K + 1) of them, where none of it is passed over. Waits for the
/// runners of a round before the next one begins.
pub fn hunt<W: Threads + Wait + Sync, F: Files, N: Runner + Send>(
    rt: &W,
    alloc: Global,
    words: &[String],
    input: &mut F::Input,
    out: &mut F::Output,
    err: &mut F::Output,
    runners: &mut Vec<N>,
) -> Status
    requires first { AsksHunt (texts words.now) }
    requires eight { 8 ≤ length runners.old.items }
    requires unasked { All (IsNewRunner N.Runner) runners.old.items }

    // Bad words are no command, and then nothing is read, written or asked but the status' line.
    ensures bad_words { result ≡ Status.BadWords → AreNoCommand (texts words.now) }
    ensures untouched { result ≡ Status.BadWords → AreAsBefore
        input.old input.new out.old out.new runners.old.items runners.new.items }

    // As many runners stand there.
    ensures runners { length runners.new.items ≡ length runners.old.items }

    // Else memory was wanting to read them, or they are `hunt` with a plan, whose search ends so.
    ensures command { result ≢ Status.BadWords
        → ((result ≡ Status.NoMemory) × AreAsBefore
        input.old input.new out.old out.new runners.old.items runners.new.items)
        ⊎ ((plan : HuntPlan) × IsSpelled (texts words.now) (Hunt plan)
        × EndsHunt F.Input.Source F.Output.Sink N.Runner plan
        input.old input.new out.old out.new runners.old.items runners.new.items result) }

    // What is due comes, unless memory is wanting or an object fails. So good words and names are Done.
    ensures complete { HuntsAsDue F.Input.Source F.Output.Sink (texts words.now)
        input.old input.new out.old out.new result }

    // The status is told.
    ensures told { IsTold F.Output.Sink err.old err.new result }
{
    one_command_law();
    one_stop_law();
    let Ok(told) = hunt_in(alloc, words) else {
        let _ = put_status(err, Status::NoMemory);
        return Status::NoMemory;
    };
    let Some(plan) = told else {
        let _ = put_status(err, Status::BadWords);
        return Status::BadWords;
    };
    let test = plan.test.as_str();
    let status = Status::from(hunt_commits(rt, alloc, plan.width, test, input, out, runners));
    // A status stands also where it can't be told.
    let _ = put_status(err, status);
    status
}

// The plan that the words are `hunt` with, if they are a command.
fn hunt_in(alloc: Global, words: &[String]) -> Result<Option<HuntPlan<'_>>, NoMemory>
    requires { AsksHunt (texts words.now) }
    ensures some { IfOk result (λ told. IfSome told (λ plan.
        IsSpelled (texts words.now) (Hunt plan))) }
    ensures none { IfOk result (λ told. IfNone told (AreNoCommand (texts words.now))) }
{
    let Some(command) = command_of(alloc, words)? else {
        return Ok(None);
    };
    match command {
        Command::Hunt(plan) => Ok(Some(plan)),
        Command::Cut(_) => unreachable!(),
        Command::Apply(_) => unreachable!(),
        Command::Gen(_) => unreachable!(),
        Command::Trial(_) => unreachable!(),
        Command::Play(_) => unreachable!(),
        Command::Path(_) => unreachable!(),
        Command::Audit(_) => unreachable!(),
    }
}
