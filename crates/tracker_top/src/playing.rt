//! `play`: scripts that run at once.
ghost use Rattle.std.specs.Prelude.{◌≡◌, ◌≢◌, ◌≤◌, ◌⊎◌, ℕ, List, All, length, IfOk, IfSome, IfNone};
ghost use Rattle.command_words.specs.{declared.command.Command.TheVariants.Play, Commands.{AreNoCommand, IsSpelled}, Plans.Plan, Texts.texts};
ghost use Rattle.tracker_top.specs.{declared.status.Status.Status, Plays.{AreNamesIn, AreUntouched, EndsPlay, IsNewRunner, IsToldIn, PlaysAsDue}, Statuses.AsksPlay};
ghost use Rattle.shared_run.specs.Crews.{asked_by};

use crate::naming::put_play_status;
use crate::status::Status;
use command_words::{Command, PlayPlan, command_of, one_command_law};
use shared_run::run_scripts;
use std::alloc::Global;
use std::sync::Wait;
use std::thread::Threads;
use track_outside::{Files, Gate, Keeper, NoMemory, Runner};

/// Runs the scripts that the words behind `play` name, at once on the machines of a store and of a list, and answers how that
/// ends.
///
/// `play [--machines LIST] [--store NAME] SCRIPT..` begins with the machines that the keeper's rows of that name lead to, and
/// those of the list that aren't among them; opens each script and creates its transcript, named as the script with `.out`
/// behind; answers each script, as its author by its number, in a thread of its own, if one can be had; writes the journals
/// of the machines to `out`, and adds the new rows to the store, where nothing stopped. A script that stops doesn't stop the
/// others. What can't be begun ends the run before any script is answered, and then no journal is written. The status' line
/// goes to `err`; where that fails the status stands.
///
/// `--recompute N` has N workers publish stale series beside the scripts, and `--bisect N --test WORD` has N workers bisect,
/// each with the runner in its place, which is asked the word and a commit. What they leave is done behind the scripts, as
/// by the first of each kind.
pub fn play<R: Threads + Wait + Sync, F: Files, K: Keeper, N: Runner + Send, G: Gate>(
    rt: &R,
    alloc: Global,
    words: &[String],
    out: &mut F::Output,
    err: &mut F::Output,
    files: &mut F,
    keeper: &mut K,
    runners: &mut Vec<N>,
    gate: &G,
) -> Status
    requires first { AsksPlay (texts words.now) }
    requires eight { 8 ≤ length runners.old.items }
    requires unasked { All (IsNewRunner N.Runner) runners.old.items }

    // Bad words are no command, and then nothing is opened, written, kept or asked but the status' line.
    ensures bad_words { result ≡ Status.BadWords → AreNoCommand (texts words.now) }
    ensures untouched { result ≡ Status.BadWords → AreUntouched
        (record { files = files.old; out = out.old; keeper = keeper.old })
        (record { files = files.new; out = out.new; keeper = keeper.new })
        runners.old.items runners.new.items }

    // As many runners stand there.
    ensures runners { length runners.new.items ≡ length runners.old.items }

    // Else memory was wanting to read them, or they are `play` with a plan, whose run ends so.
    ensures command { result ≢ Status.BadWords
        → ((result ≡ Status.NoMemory) × AreUntouched
        (record { files = files.old; out = out.old; keeper = keeper.old })
        (record { files = files.new; out = out.new; keeper = keeper.new })
        runners.old.items runners.new.items)
        ⊎ ((plan : Plan) × IsSpelled (texts words.now) (Play plan)
        × EndsPlay
        (record { files = F.Files; input = F.Input.Source; out = F.Output.Sink; keeper = K.Keeper })
        plan (asked_by N.Runner runners.old.items runners.new.items)
        (record { files = files.old; out = out.old; keeper = keeper.old })
        (record { files = files.new; out = out.new; keeper = keeper.new }) result) }

    // What is due comes, unless memory is wanting or an object fails. So good words, rows, machines and
    // scripts are Done.
    ensures complete { PlaysAsDue
        (record { files = F.Files; input = F.Input.Source; out = F.Output.Sink; keeper = K.Keeper })
        (texts words.now)
        (record { files = files.old; out = out.old; keeper = keeper.old })
        (record { files = files.new; out = out.new; keeper = keeper.new }) result }

    // The status is told, with the script's name as the words have it.
    ensures told { (names : List (List ℕ)) → AreNamesIn (texts words.now) names
        → IsToldIn F.Output.Sink names err.old err.new result }
{
    one_command_law();
    let Ok(told) = plan_in(alloc, words) else {
        let _ = put_play_status(err, &[], Status::NoMemory);
        return Status::NoMemory;
    };
    let Some(plan) = told else {
        let _ = put_play_status(err, &[], Status::BadWords);
        return Status::BadWords;
    };
    let status = match run_scripts(rt, alloc, &plan, out, files, keeper, runners, gate) {
        Ok(()) => Status::Done,
        Err(stop) => Status::from(stop),
    };
    // A status stands also where it can't be told.
    let _ = put_play_status(err, plan.scripts(), status);
    status
}

// The plan that the words are `play` with, if they are a command.
fn plan_in(alloc: Global, words: &[String]) -> Result<Option<PlayPlan<'_>>, NoMemory>
    requires { AsksPlay (texts words.now) }
    ensures some { IfOk result (λ told. IfSome told (λ plan.
        IsSpelled (texts words.now) (Play plan))) }
    ensures none { IfOk result (λ told. IfNone told (AreNoCommand (texts words.now))) }
{
    let Some(command) = command_of(alloc, words)? else {
        return Ok(None);
    };
    match command {
        Command::Play(plan) => Ok(Some(plan)),
        Command::Cut(_) => unreachable!(),
        Command::Apply(_) => unreachable!(),
        Command::Gen(_) => unreachable!(),
        Command::Trial(_) => unreachable!(),
        Command::Path(_) => unreachable!(),
        Command::Hunt(_) => unreachable!(),
        Command::Audit(_) => unreachable!(),
    }
}
