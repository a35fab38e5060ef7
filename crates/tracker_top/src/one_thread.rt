//! A command of one thread, on its objects.
ghost use Rattle.std.specs.Prelude.{◌≡◌};
ghost use Rattle.command_words.specs.Texts.{texts};
ghost use Rattle.tracker_top.specs.{Endings.streams, Runs.{RunsAlone, RunsAudit}, Statuses.{AsksAudit, AsksHunt, AsksPlay}};

use crate::auditing::audit;
use crate::status::Status;
use crate::top::run_streams;
use crate::words::asks_audit;
use pelt_core::Steps;
use std::alloc::Global;
use std::sync::ledger::Ledger;
use track_outside::{Files, Keeper};

/// Runs the command that the words are, those behind the program's name, and answers how it ends.
///
/// `cut PENALTY`, with a number of at most 10^36, reads cut lines from the input, an order and a value each, and writes
/// the certificate of the best segmentation of their points to `out`, in seven lines; with `--least L`, a number from 1 to
/// 64, each segment has at least L positions where there are several; above 1 the text has a line more. With `--absolute`
/// a segment costs the least sum of distances from a whole number, and not of their squares. `path LOW HIGH`, with two such
/// numbers, reads cut lines of 1,024 positions at most, and writes the best segmentations of their points at all penalties
/// from one to the other, by squares and with the least length 1, in stretches of one list. `apply` reads the
/// requests of a script from the input, answers one after another on the machines that it declares, and writes the
/// replies to `out`. `apply --store NAME` begins with the machines that the keeper's rows of that name lead to, and adds
/// the new rows at the end of the script, all or none. `gen NUMBER`, with a number of 64 bits, reads nothing and writes
/// the script of the number to `out`; `trial NUMBER` answers that script and writes the replies about segmentations
/// alone: the part of what `apply` answers it. That script is whole and none of its requests is refused, so only the
/// output and want of memory stop a trial. The words are read as those of command lines (`command_words`), which takes
/// memory; where it is wanting, nothing else is touched but the status' line.
/// `apply` and `trial` count their steps: one for each position that a segmentation looks at anew. `play` and `hunt`,
/// which run threads, are no commands of one.
/// `audit JOURNAL SCRIPT..` opens files and reads nothing else ([`audit`](crate::audit)).
/// The status' line goes to `err`; where that fails the status stands. At most 2^30 bytes of an input are read, and one
/// more to see that there are no more. The texts are those of docs/FORMATS.md, the statuses those of docs/COMMANDS.md.
///
/// Linear in the bytes read. `cut` is quadratic in the positions, and linear in the values for each position; its memory
/// is linear in the values. By distances each cost that it asks for is linear in the segment's values besides. `path` makes
/// three such tables at most for each stretch, of which there are no more than positions. `apply` takes what each request and each kept entry takes of its machine's state
/// (`track_step::step`, `track_replay::replay`), and keeps the histories, one line and one body.
pub fn alone<F: Files, K: Keeper, L: Ledger>(
    alloc: Global,
    words: &[String],
    input: &mut F::Input,
    out: &mut F::Output,
    err: &mut F::Output,
    files: &mut F,
    keeper: &mut K,
    steps: &mut Steps<L>,
) -> Status
    requires play { ¬ AsksPlay (texts words.now) }
    requires hunt { ¬ AsksHunt (texts words.now) }

    // `audit` reads the files that its words name, and nothing else.
    ensures audit { AsksAudit (texts words.now) → RunsAudit F.Files F.Output.Sink
        (texts words.now) files.old files.new out.old out.new err.old err.new result }
    ensures unread { AsksAudit (texts words.now)
        → (input.new ≡ input.old) × (keeper.new ≡ keeper.old) × (steps.new ≡ steps.old) }

    // No other command opens a file.
    ensures others { ¬ AsksAudit (texts words.now) → RunsAlone
        F.Input.Source F.Output.Sink K.Keeper (texts words.now)
        (streams input.old out.old keeper.old steps.old)
        (streams input.new out.new keeper.new steps.new)
        err.old err.new files.old files.new result }
{
    if asks_audit(words) {
        return audit(alloc, words, out, err, files);
    }
    run_streams(alloc, words, input, out, err, keeper, steps)
}
