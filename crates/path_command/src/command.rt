//! The command, from its input to its output.
ghost use Rattle.std.specs.Prelude.{◌≡◌, IfOk};
ghost use Rattle.penalty_path.specs.{Paths.IsRange, Text.path_text};
ghost use Rattle.path_command.specs.Endings.{EndsInput, EndsPath};

use crate::end::PathEnd;
use cut_lines::{Stop, read_points_within};
use line_text::NoMemory;
use penalty_path::{Stretches, path, put_path};
use std::alloc::Global;
use track_outside::{Sink, Source, put_all};

/// The most positions.
const POSITIONS: u64 = 1_024;

/// Reads cut lines, finds the best cut list of their points at each penalty from one to another, and writes them as
/// stretches of one list.
pub fn path_points<I: Source, O: Sink>(
    alloc: Global,
    low: i128,
    high: i128,
    input: &mut I,
    out: &mut O,
) -> PathEnd
    requires { IsRange low high }
    ensures input { EndsInput I.Source input.old input.new result }
    ensures path { EndsPath O.Sink (I.left input.old) low high out.old out.new result }
{
    let points = match read_points_within(alloc, POSITIONS, input) {
        Ok(points) => points,
        Err(stop) => return PathEnd::Stopped(stop),
    };
    let Ok(stretches) = path(alloc, &points, low, high) else {
        return PathEnd::Stopped(Stop::NoMemory);
    };
    let Ok(text) = text_of(alloc, &stretches) else {
        return PathEnd::Stopped(Stop::NoMemory);
    };
    match put_all(out, &text) {
        Ok(()) => PathEnd::Done,
        Err(_) => PathEnd::WriteFault,
    }
}

// The text of a path.
fn text_of(alloc: Global, stretches: &Stretches) -> Result<Vec<u8>, NoMemory>
    ensures { IfOk result (λ text. text.items ≡ path_text stretches.now) }
{
    let mut text = Vec::new(alloc);
    put_path(alloc, &mut text, stretches)?;
    Ok(text)
}
