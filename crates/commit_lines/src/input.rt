//! The names of an input.
ghost use Rattle.std.specs.{Io.KnownBytes.IsAtEnd, Prelude.{◌+◌, ◌^◌, ◌≤◌, length, OnOk, IfOk, IfErr}};
ghost use Rattle.track_outside.specs.Calls.{GaveAtMost};
ghost use Rattle.commit_lines.specs.{Reading.AreNamesOfInput, Stops.{OneStop, NoStopOfNames, OneListOfNames, StopsFor}};

use crate::reader::{Commits, Reader};
use line_pieces::{Stop, read_lines};
use std::alloc::Global;
use track_outside::Source;

/// No bytes show two stops, nor a stop where they have names, of which they have one list. Does nothing: its contract is
/// what it is for.
pub fn one_stop_law()
    ensures stops { OneStop }
    ensures names { NoStopOfNames }
    ensures list { OneListOfNames }
{}

/// The names of the commits that the lines of the input say. Linear in the bytes, of which one piece is held at once.
pub fn read_commits<I: Source>(alloc: Global, input: &mut I) -> Result<Commits, Stop>
    ensures names { IfOk result (λ names. AreNamesOfInput (I.left input.old) names) }
    ensures count { IfOk result (λ names. length names ≤ 65_536) }
    ensures whole { OnOk result (IsAtEnd (I.left input.new)) }
    ensures stop { IfErr result (StopsFor I.Source input.old input.new) }
    ensures few { GaveAtMost (2 ^ 30 + 1) (I.left input.old) (I.left input.new) }
    ensures counts { I.faults input.old ≤ I.faults input.new }
{
    let mut reader = Reader::new(alloc);
    read_lines(alloc, input, &mut reader)?;
    reader.finish()
}
