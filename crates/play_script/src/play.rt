//! One script of a shared run.
ghost use Rattle.std.specs.Prelude.{◌≡◌, ◌+◌, ◌≤◌, true};
ghost use Rattle.track_outside.specs.Calls.{GaveAtMost};
ghost use Rattle.request_reader.specs.Scripts.{input_limit};
ghost use Rattle.script_loop.specs.Paced.{Paced};
ghost use Rattle.play_script.specs.Played.{IsPlayed, IsEmpty};

use crate::beside::Beside;
use play_fits::parts_law;
use script_loop::{Pace, Stop, answer_paced};
use std::alloc::Global;
use track_outside::{Sink, Source};

/// Answers a script, each reply written before the next request is read, as the pace must ask. Ends at the end of the script,
/// or at the first thing that stops it.
///
/// Linear in the bytes of the script, beside what the steps take.
pub fn play_script<D: Beside, P: Pace, I: Source, O: Sink>(
    alloc: Global,
    desk: &mut D,
    pace: &P,
    input: &mut I,
    out: &mut O,
) -> Result<(), Stop>
    requires empty { IsEmpty (O.taken out.old) }
    requires each { P.each ≡ true }
    ensures played { IsPlayed (D.post desk.old) (D.post desk.new)
        (I.left input.old) (O.taken out.new) result }
    ensures ends { Paced I.Source O.Sink input.old input.new out.old out.new
        D.answers D.fails P.each desk.old desk.new result }
    ensures few { GaveAtMost (input_limit + 1) (I.left input.old) (I.left input.new) }
    ensures counts { I.faults input.old ≤ I.faults input.new }
    ensures named { O.name out.new ≡ O.name out.old }
{
    parts_law();
    answer_paced(alloc, desk, pace, input, out)
}
