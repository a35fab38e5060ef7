//! Journals, read from their text.
ghost use Rattle.std.specs.{Prelude.{◌≡◌, ◌≢◌, ℕ, true, false, [], IfOk}, List.AllByRecursion};
ghost use Rattle.journal_reader.specs.{Journals.{IsOther, IsTextOf}, Next.{IsNewHead, IsNext, IsRefusedNext}, Reading.IsRefusedAt};
ghost use Rattle.journal_reader.specs.declared.read.Refused.TheVariants as refused;

use crate::journal::Journal;
use crate::judge::Judge;
use journal_lines::{Head, LineFault, Lines, lines_law, read_head, read_history};
use line_text::{Name, Names, names_law, numbers_law};
use metric_table::Limit;
use std::alloc::Global;
use track_entry::entries_law;

// How many names are kept, so that they are shared where they come again.
const NAMES: usize = 4_096;

/// Why no journals were read.
#[derive(Clone, Copy, Debug, PartialEq, Eq)]
pub enum Refused {
    /// This line, from 1, is the first that is refused, or one past the last.
    Line(u64),
    /// There was no memory.
    NoMemory,
}

/// The journals whose text this is, beside so many scripts; else the first line that is refused. Linear in the text, beside
/// what judging their histories takes.
pub fn read_journals<J: Judge>(
    alloc: Global,
    judge: &J,
    scripts: u8,
    text: &[u8],
) -> Result<Vec<Journal>, Refused>
    ensures read { IfOk result (λ journals. IsTextOf scripts text.now journals.items) }
    ensures refused { (line : ℕ) → result ≡ Err (refused.Line line)
        → IsRefusedAt scripts text.now line }
{
    let mut names = Names::new(alloc, NAMES);
    let mut lines = Lines::new(text);
    let mut journals = Vec::new(alloc);
    while !lines.is_empty() {
        match read_journal(alloc, judge, &mut names, scripts, &journals, &mut lines) {
            Ok(journal) => {
                if let Err(_) = journals.push(journal) {
                    return Err(Refused::NoMemory);
                }
            }
            Err(refused) => return Err(refused),
        }
    }
    Ok(journals)
}

// The next journal, behind some.
fn read_journal<J: Judge>(
    alloc: Global,
    judge: &J,
    names: &mut Names,
    scripts: u8,
    before: &[Journal],
    lines: &mut Lines,
) -> Result<Journal, Refused>
    requires { lines.old.rest ≢ [] }
    ensures read { IfOk result (IsNext scripts before.now lines.old lines.new) }
    ensures refused { (line : ℕ) → result ≡ Err (refused.Line line)
        → IsRefusedNext scripts before.now lines.old line }
{
    names_law();
    numbers_law();
    entries_law();
    let number = lines.count() + 1;
    let head = match read_new_head(alloc, names, before, lines) {
        Ok(head) => head,
        Err(refused) => return Err(refused),
    };
    let Ok(history) = read_history(alloc, names, scripts, head.count, lines) else {
        return Err(Refused::NoMemory);
    };
    let read = history.len() as u64;
    let Ok(allowed) = judge.count_allowed(alloc, &head.machine, &history) else {
        return Err(Refused::NoMemory);
    };
    if allowed < read || read < head.count {
        return Err(Refused::Line(number + allowed + 1));
    }
    Ok(Journal {
        machine: head.machine,
        history,
    })
}

// The line of the next machine, which is a new one.
fn read_new_head(
    alloc: Global,
    names: &mut Names,
    before: &[Journal],
    lines: &mut Lines,
) -> Result<Head, Refused>
    requires { lines.old.rest ≢ [] }
    ensures read { IfOk result (IsNewHead before.now lines.old lines.new) }
    ensures refused { (scripts line : ℕ) → result ≡ Err (refused.Line line)
        → IsRefusedNext scripts before.now lines.old line }
{
    names_law();
    numbers_law();
    entries_law();
    lines_law();
    let number = lines.count() + 1;
    let Some(next) = lines.next() else {
        return Err(Refused::Line(number));
    };
    let head = match read_head(alloc, names, next.line) {
        Ok(head) => head,
        Err(LineFault::NotLine) => return Err(Refused::Line(number)),
        Err(LineFault::NoMemory) => return Err(Refused::NoMemory),
    };
    if before.len() as u64 >= Limit::Machines.most() {
        return Err(Refused::Line(number));
    }
    if is_among(before, &head.machine) {
        return Err(Refused::Line(number));
    }
    lines.pass(next);
    Ok(head)
}

// Whether a machine is among those of journals.
fn is_among(journals: &[Journal], machine: &Name) -> bool
    ensures no { result ≡ false → AllByRecursion (IsOther machine.now) journals.now }
    ensures yes { result ≡ true → ¬ AllByRecursion (IsOther machine.now) journals.now }
{
    for journal in journals {
        if is_of(journal, machine) {
            return true;
        }
    }
    false
}

// Whether a journal is that of a machine.
fn is_of(journal: &Journal, machine: &Name) -> bool
    ensures no { result ≡ false → IsOther machine.now journal.now }
    ensures yes { result ≡ true → journal.now.machine ≡ machine.now }
{
    journal.machine == *machine
}
