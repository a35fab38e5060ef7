//! The line of an entry, read.
ghost use Rattle.std.specs.Prelude.{◌≡◌, ◌≢◌, IfOk, true, false, decimal};
ghost use Rattle.history_model.specs.declared.entries.Placed.{Placed as APlaced};
ghost use Rattle.journal_lines.specs.Lines.{IsStep};
ghost use Rattle.journal_lines.specs.declared.fault.LineFault.TheVariants as fault;
ghost use Rattle.track_entry.specs.declared.fault.EntryFault.TheVariants as refused;

use crate::author::read_author;
use crate::fault::LineFault;
use crate::parts::first_word;
use history_model::Placed;
use line_text::{Names, read_u64};
use std::alloc::Global;
use track_entry::{EntryFault, read_entry_with};

/// The entry of this step that a line says, without its line feed, with its author; `NotLine` exactly where the bytes are
/// no line of that step. Linear in the line.
pub fn read_step(
    alloc: Global,
    names: &mut Names,
    step: u64,
    line: &[u8],
) -> Result<Placed, LineFault>
    ensures read { IfOk result (λ p. IsStep step line.now p) }
    ensures bad { result ≡ Err fault.NotLine → (p : APlaced) → ¬ IsStep step line.now p }
{
    let Some(first) = first_word(line) else {
        return Err(LineFault::NotLine);
    };
    if !is_step(first.word, step) {
        return Err(LineFault::NotLine);
    }
    let Some(second) = first_word(first.rest) else {
        return Err(LineFault::NotLine);
    };
    let Some(author) = read_author(second.word) else {
        return Err(LineFault::NotLine);
    };
    match read_entry_with(alloc, names, second.rest) {
        Ok(entry) => Ok(Placed { author, entry }),
        Err(refusal) => Err(fault_of(refusal)),
    }
}

// Whether a word spells a step.
fn is_step(word: &[u8], step: u64) -> bool
    ensures yes { result ≡ true → word.now ≡ decimal step }
    ensures no { result ≡ false → word.now ≢ decimal step }
{
    match read_u64(word) {
        Some(number) => number == step,
        None => false,
    }
}

// Why no line was read where no entry was.
fn fault_of(refusal: EntryFault) -> LineFault
    ensures { result ≡ fault.NotLine → refusal ≡ refused.NotEntry }
{
    match refusal {
        EntryFault::NotEntry => LineFault::NotLine,
        EntryFault::NoMemory => LineFault::NoMemory,
    }
}
