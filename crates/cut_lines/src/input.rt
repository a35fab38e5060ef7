//! The points of an input.
ghost use Rattle.std.specs.{Io.KnownBytes.IsAtEnd, Prelude.{ℕ, ◌+◌, ◌^◌, ◌≤◌, length, OnOk, IfOk, IfErr}};
ghost use Rattle.track_outside.specs.Calls.{GaveAtMost};
ghost use Rattle.cut_lines.specs.{Reading.{ArePointsOfInput, AreInputPointsWithin}, Stops.{OneStop, OneStopWithin, NoStopOfPoints, NoStopOfPointsWithin, StopsFor, StopsWithin}};

use crate::reader::Reader;
use line_pieces::{Stop, read_lines};
use point_list::Points;
use std::alloc::Global;
use track_outside::Source;

/// The most positions of a series.
const SERIES_POSITIONS: u64 = 16_384;

/// No bytes show two stops, nor a stop where they have points. Does nothing: its contract is what it is for.
pub fn one_stop_law()
    ensures stops { OneStop }
    ensures points { NoStopOfPoints }
    ensures stops_within { (most : ℕ) → OneStopWithin most }
    ensures points_within { (most : ℕ) → NoStopOfPointsWithin most }
{}

/// The points of the cut lines that the input has. Linear in the bytes, of which one piece is held at once.
pub fn read_points<I: Source>(alloc: Global, input: &mut I) -> Result<Points, Stop>
    ensures points { IfOk result (λ points. ArePointsOfInput (I.left input.old) points) }
    ensures whole { OnOk result (IsAtEnd (I.left input.new)) }
    ensures stop { IfErr result (StopsFor I.Source input.old input.new) }
    ensures few { GaveAtMost (2 ^ 30 + 1) (I.left input.old) (I.left input.new) }
    ensures counts { I.faults input.old ≤ I.faults input.new }
{
    read_points_within(alloc, SERIES_POSITIONS, input)
}

/// As [`read_points`], for so many positions at most.
pub fn read_points_within<I: Source>(
    alloc: Global,
    most: u64,
    input: &mut I,
) -> Result<Points, Stop>
    requires { most ≤ 16_384 }
    ensures points { IfOk result (λ points. AreInputPointsWithin most (I.left input.old) points) }
    ensures positions { IfOk result (λ points. length points ≤ most) }
    ensures whole { OnOk result (IsAtEnd (I.left input.new)) }
    ensures stop { IfErr result (StopsWithin most I.Source input.old input.new) }
    ensures few { GaveAtMost (2 ^ 30 + 1) (I.left input.old) (I.left input.new) }
    ensures counts { I.faults input.old ≤ I.faults input.new }
{
    let mut reader = Reader::new(alloc, most);
    read_lines(alloc, input, &mut reader)?;
    reader.finish()
}
