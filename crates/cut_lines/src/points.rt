//! What a whole line adds to the points.
ghost use Rattle.std.specs.Prelude.{◌≤◌, ℕ, List, OnOk, IfErr};
ghost use Rattle.segment_model.specs.Limits.{IsSmall};
ghost use Rattle.point_list.specs.Steps.{CameUpTo};
ghost use Rattle.cut_lines.specs.{Lines.IsCutLine, Adding.{AddsValue, TakesLine, RefusesLine}};

use crate::cut_line::{LINE_LIMIT, LineKind, line_kind};
use line_pieces::{Refusal, Stop};
use point_list::{PointFault, Points, steps_law};

/// Adds what the line of this number says, where there may be so many positions. A line that is longer than a line may be
/// is skipped.
pub fn add_line(points: &mut Points, most: u64, number: u64, line: &[u8]) -> Result<(), Stop>
    requires most { most ≤ 16_384 }
    requires step { CameUpTo number points.old }
    ensures ok { OnOk result (TakesLine most line.now number points.old points.new) }
    ensures err { IfErr result (RefusesLine most line.now number points.old) }
    ensures steps { CameUpTo number points.new }
{
    if line.len() > LINE_LIMIT {
        return Ok(());
    }
    match line_kind(line) {
        LineKind::Skipped => Ok(()),
        LineKind::Cut(order, value) => add(points, most, number, order, value),
        LineKind::Bad => Err(Stop::Refused(Refusal::Bad, number)),
    }
}

// Adds the value of the cut line of this number: its order is the commit, its number the step.
fn add(points: &mut Points, most: u64, number: u64, order: u64, value: i64) -> Result<(), Stop>
    requires most { most ≤ 16_384 }
    requires step { CameUpTo number points.old }
    requires small { IsSmall value }
    ensures ok { OnOk result (AddsValue most number order value points.old points.new) }
    ensures err { IfErr result (λ stop. (line : List ℕ) → IsCutLine line order value
        → RefusesLine most line number points.old stop) }
    ensures steps { CameUpTo number points.new }
{
    steps_law();
    let mut near = usize::MAX;
    match points.insert_near(&mut near, order, number, value) {
        Ok(()) => {
            points.limits();
            if points.len() as u64 > most {
                return Err(Stop::Refused(Refusal::Full, number));
            }
            Ok(())
        }
        Err(PointFault::NoMemory) => Err(Stop::NoMemory),
        Err(PointFault::SamplesFull) => Err(Stop::Refused(Refusal::Full, number)),
        Err(PointFault::PositionsFull) => Err(Stop::Refused(Refusal::Full, number)),
    }
}
