//! Which entries of the journals were asked for.
ghost use Rattle.std.specs.Prelude.{◌≡◌, ◌+◌, ◌<◌, ◌^◌, ℕ, true, false, length, replicate, IfOk, IfSome, IfNone};
ghost use Rattle.history_model.specs.declared.entries.Author.TheVariants as made_by;
ghost use Rattle.play_audit.specs.{Known.{lines_in, tracks_of}, Marks.{AreRows, IsFirstIn, IsFirstOpen, NoneIn, NoneMarked, NoneOpen, rows_of}};

use crate::NoMemory;
use history_model::{Author, Placed};
use journal_reader::Journal;
use std::alloc::Global;

// No entry was asked for.
pub(crate) fn no_marks(alloc: Global, journals: &[Journal]) -> Result<Vec<Vec<bool>>, NoMemory>
    ensures rows { IfOk result (λ marks.
        AreRows (tracks_of journals.now) (rows_of marks.items)) }
    ensures none { IfOk result (λ marks. NoneMarked (rows_of marks.items)) }
{
    let mut marks = Vec::new(alloc);
    for journal in journals {
        marks.push(unmarked(alloc, count_of(journal))?)?;
    }
    Ok(marks)
}

// A row of so many marks that aren't made.
fn unmarked(alloc: Global, count: usize) -> Result<Vec<bool>, NoMemory>
    ensures { IfOk result (λ row. row.items ≡ replicate count false) }
{
    Ok(vec![in alloc; false; count]?)
}

// The line of the first entry that is a script's and wasn't asked for, in the text of the journals.
pub(crate) fn first_unasked(journals: &[Journal], marks: &[Vec<bool>]) -> Option<u64>
    requires rows { AreRows (tracks_of journals.now) (rows_of marks.now) }
    requires fits { lines_in (tracks_of journals.now) + 1 < 2 ^ 64 }
    ensures some { IfSome result (IsFirstOpen (tracks_of journals.now) (rows_of marks.now)) }
    ensures none { IfNone result (NoneOpen (tracks_of journals.now) (rows_of marks.now)) }
{
    let mut before = 0;
    for (i, journal) in journals.iter().enumerate() {
        if let Some(place) = unasked_in(&journal.history, &marks[i]) {
            return Some(before + place + 2);
        }
        before += 1 + count_of(journal) as u64;
    }
    None
}

// The place of the first such entry of a history.
fn unasked_in(history: &[Placed], marks: &[bool]) -> Option<u64>
    requires { length marks.now ≡ length history.now }
    ensures some { IfSome result (IsFirstIn history.now marks.now) }
    ensures none { IfNone result (NoneIn history.now marks.now) }
{
    for (i, placed) in history.iter().enumerate() {
        if is_of_script(placed.author) && !marks[i] {
            return Some(i as u64);
        }
    }
    None
}

// Whether an entry is a script's.
fn is_of_script(author: Author) -> bool
    ensures yes { result ≡ true → (i : ℕ) × (author ≡ made_by.Script i) }
    ensures no { result ≡ false → (i : ℕ) → ¬ (author ≡ made_by.Script i) }
{
    matches!(author, Author::Script(_))
}

// How many entries a journal has.
pub(crate) fn count_of(journal: &Journal) -> usize
    ensures { result ≡ length journal.now.history }
{
    let history: &[Placed] = &journal.history;
    history.len()
}
