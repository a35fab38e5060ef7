//! The lines of a journal's entries, read.
ghost use Rattle.std.specs.{Prelude.{◌≡◌, ◌↔◌, ◌+◌, ◌++◌, IfOk, IfSome, IfNone, IsTrue, length}, List.AllByRecursion};
ghost use Rattle.history_model.specs.declared.entries.Author.TheVariants as made_by;
ghost use Rattle.journal_lines.specs.{Coming.{AreRead, HasNoNext, MayCome, WasKept}, Lines.HasLine, Texts.entry_line};

use crate::NoMemory;
use crate::coming::may_come;
use crate::fault::LineFault;
use crate::laws::lines_law;
use crate::lines::Lines;
use crate::step::read_step;
use history_model::{Author, Placed};
use line_text::{Names, names_law};
use std::alloc::Global;

/// The next entries of a journal, so many; or those in front of the first line that is none, or whose entry may not come
/// there. Linear in the text that it reads.
pub fn read_history(
    alloc: Global,
    names: &mut Names,
    scripts: u8,
    count: u64,
    lines: &mut Lines,
) -> Result<Vec<Placed>, NoMemory>
    ensures read { IfOk result (λ history.
        AreRead scripts count lines.old.rest lines.new.rest history.items) }
    ensures counted { IfOk result (λ history.
        lines.new.count ≡ lines.old.count + length history.items) }
{
    let mut history = Vec::new(alloc);
    let mut kept = true;
    while (history.len() as u64) < count {
        let placed = match read_next(alloc, names, scripts, kept, &history, lines) {
            Ok(Some(placed)) => placed,
            Ok(None) => return Ok(history),
            Err(NoMemory) => return Err(NoMemory),
        };
        kept = is_kept(placed.author);
        history.push(placed)?;
    }
    Ok(history)
}

// Whether it is the author of kept entries.
fn is_kept(author: Author) -> bool
    ensures { IsTrue result ↔ (author ≡ made_by.Kept) }
{
    matches!(author, Author::Kept)
}

// The next entry, behind others that were all kept or not; none exactly where the next line isn't that of one that may come.
fn read_next(
    alloc: Global,
    names: &mut Names,
    scripts: u8,
    kept: bool,
    before: &[Placed],
    lines: &mut Lines,
) -> Result<Option<Placed>, NoMemory>
    requires { IsTrue kept ↔ AllByRecursion WasKept before.now }
    ensures some { IfOk result (λ next. IfSome next (λ p. HasLine p
        × MayCome scripts before.now p
        × (lines.old.rest ≡ entry_line (length before.now + 1) p ++ lines.new.rest)
        × (lines.new.count ≡ lines.old.count + 1))) }
    ensures none { IfOk result (λ next. IfNone next
        (HasNoNext scripts before.now lines.old.rest × (lines.new ≡ lines.old))) }
{
    names_law();
    lines_law();
    let Some(next) = lines.next() else {
        return Ok(None);
    };
    let placed = match read_step(alloc, names, before.len() as u64 + 1, next.line) {
        Ok(placed) => placed,
        Err(LineFault::NotLine) => return Ok(None),
        Err(LineFault::NoMemory) => return Err(NoMemory),
    };
    if !may_come(scripts, kept, &placed) {
        return Ok(None);
    }
    lines.pass(next);
    Ok(Some(placed))
}
