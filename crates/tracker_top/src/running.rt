//! The whole program, on its objects.
ghost use Rattle.std.specs.Prelude.{◌≡◌, ◌≤◌, All, length};
ghost use Rattle.command_words.specs.Texts.{texts};
ghost use Rattle.tracker_top.specs.{Plays.IsNewRunner, Endings.streams, Runs.{RunsAlone, RunsAudit, RunsHunt, RunsPlay}, Statuses.{AsksAudit, AsksHunt, AsksPlay}};

use crate::hunting::hunt;
use crate::one_thread::alone;
use crate::playing::play;
use crate::status::Status;
use crate::words::{asks_hunt, asks_play};
use pelt_core::Steps;
use std::alloc::Global;
use std::sync::Wait;
use std::sync::ledger::Ledger;
use std::thread::Threads;
use track_outside::{Files, Gate, Keeper, Runner};

/// Runs the program on its words: scripts at once where the first word is `play` ([`play`]), a search by rounds of tests where
/// it is `hunt` ([`hunt`]), else a command of one thread ([`alone`]).
pub fn run<R: Threads + Wait + Sync, F: Files, K: Keeper, N: Runner + Send, G: Gate, L: Ledger>(
    rt: &R,
    alloc: Global,
    words: &[String],
    input: &mut F::Input,
    out: &mut F::Output,
    err: &mut F::Output,
    files: &mut F,
    keeper: &mut K,
    runners: &mut Vec<N>,
    gate: &G,
    steps: &mut Steps<L>,
) -> Status
    requires eight { 8 ≤ length runners.old.items }
    requires unasked { All (IsNewRunner N.Runner) runners.old.items }

    // `play` reads no standard input and counts no steps.
    ensures play { AsksPlay (texts words.now) → RunsPlay
        (record { files = F.Files; input = F.Input.Source; out = F.Output.Sink; keeper = K.Keeper })
        N.Runner (texts words.now)
        (record { files = files.old; out = out.old; keeper = keeper.old })
        (record { files = files.new; out = out.new; keeper = keeper.new })
        err.old err.new runners.old.items runners.new.items result }
    ensures unread { AsksPlay (texts words.now)
        → (input.new ≡ input.old) × (steps.new ≡ steps.old) }

    // `hunt` opens no file, calls no keeper and counts no steps.
    ensures hunt { AsksHunt (texts words.now) → RunsHunt
        F.Input.Source F.Output.Sink N.Runner (texts words.now)
        input.old input.new out.old out.new err.old err.new
        runners.old.items runners.new.items result }
    ensures unopened { AsksHunt (texts words.now)
        → (files.new ≡ files.old) × (keeper.new ≡ keeper.old) × (steps.new ≡ steps.old) }

    // `audit` reads the files that its words name, calls no keeper and counts no steps.
    ensures audit { AsksAudit (texts words.now) → RunsAudit F.Files F.Output.Sink
        (texts words.now) files.old files.new out.old out.new err.old err.new result }
    ensures unkept { AsksAudit (texts words.now)
        → (input.new ≡ input.old) × (keeper.new ≡ keeper.old) × (steps.new ≡ steps.old) }

    // The others open no file. All but `play` and `hunt` take no runner.
    ensures alone { ¬ AsksPlay (texts words.now) → ¬ AsksHunt (texts words.now)
        → ¬ AsksAudit (texts words.now) → RunsAlone
        F.Input.Source F.Output.Sink K.Keeper (texts words.now)
        (streams input.old out.old keeper.old steps.old)
        (streams input.new out.new keeper.new steps.new)
        err.old err.new files.old files.new result }
    ensures unasked { ¬ AsksPlay (texts words.now) → ¬ AsksHunt (texts words.now)
        → runners.new.items ≡ runners.old.items }
{
    if asks_play(words) {
        return play(rt, alloc, words, out, err, files, keeper, runners, gate);
    }
    if asks_hunt(words) {
        return hunt::<_, F, _>(rt, alloc, words, input, out, err, runners);
    }
    alone(alloc, words, input, out, err, files, keeper, steps)
}
