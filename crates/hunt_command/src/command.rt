//! The command, from its input to its output.
ghost use Rattle.std.specs.Prelude.{◌≡◌, ◌≤◌, length, IfOk};
ghost use Rattle.hunt_command.specs.{Endings.{EndsInput, EndsHunt}, Text.hunt_text};

use crate::end::HuntEnd;
use crate::text::put_hunt;
use commit_lines::{Stop, read_commits};
use hunt_rounds::hunt;
use line_text::{Name, NoMemory};
use std::alloc::Global;
use std::sync::Wait;
use std::thread::Threads;
use track_outside::{Runner, Sink, Source, put_all};
use wide_bisect::Wide;

/// Reads names of commits, one to a line, of which the first is stated good and the last one bad; searches by rounds, each
/// of which asks so many runners at once at most, for two neighbours among those that can be tested; and writes the line of
/// what it found.
///
/// Waits for the runners. Linear in the bytes of the input, and in each round in the places that are open.
pub fn hunt_commits<W: Threads + Wait + Sync, I: Source, O: Sink, A: Runner + Send>(
    rt: &W,
    alloc: Global,
    width: u8,
    test: &str,
    input: &mut I,
    out: &mut O,
    runners: &mut [A],
) -> HuntEnd
    requires width { (1 ≤ width) × (width ≤ 8) }
    requires enough { width ≤ length runners.old }
    ensures input { EndsInput I.Source input.old input.new result }
    ensures hunt { EndsHunt O.Sink A.Runner (I.left input.old) test.now width
        out.old out.new runners.old runners.new result }
{
    let commits = match read_commits(alloc, input) {
        Ok(commits) => commits,
        Err(stop) => return HuntEnd::Stopped(stop),
    };
    let names = commits.as_slice();
    if names.len() < 2 {
        return HuntEnd::TooFew(names.len() as u64);
    }
    let Ok(search) = hunt(rt, alloc, test, names, width, runners) else {
        return HuntEnd::Stopped(Stop::NoMemory);
    };
    let Ok(text) = text_of(alloc, names, &search) else {
        return HuntEnd::Stopped(Stop::NoMemory);
    };
    match put_all(out, &text) {
        Ok(()) => HuntEnd::Done,
        Err(_) => HuntEnd::WriteFault,
    }
}

// The line of a search.
fn text_of(alloc: Global, names: &[Name], search: &Wide) -> Result<Vec<u8>, NoMemory>
    ensures { IfOk result (λ text. text.items ≡ hunt_text names.now search.now) }
{
    let mut text = Vec::new(alloc);
    put_hunt(alloc, &mut text, names, search)?;
    Ok(text)
}
