//! The lines of a journal.
ghost use Rattle.std.specs.Prelude.{◌≡◌, ◌∷◌, ◌++◌, OnOk, decimal, length};
ghost use Rattle.journal_text.specs.Journals.{author_word, entry_line, head_line};

use crate::NoMemory;
use history_model::{Author, Placed};
use line_text::{put_name, put_u64};
use machine_state::MachineState;
use std::alloc::Global;
use track_entry::put_entry;

// Appends the line of a machine.
pub(crate) fn put_head(
    alloc: Global,
    out: &mut Vec<u8>,
    track: &MachineState,
) -> Result<(), NoMemory>
    ensures { OnOk result (out.new.items
        ≡ out.old.items ++ head_line track.now.machine (length track.now.history)) }
{
    out.extend_from_slice(b"machine ")?;
    put_name(alloc, out, track.machine())?;
    out.extend_from_slice(b" steps ")?;
    put_u64(alloc, out, track.len())?;
    out.push(b'\n')?;
    Ok(())
}

// Appends the line of an entry.
pub(crate) fn put_line(
    alloc: Global,
    out: &mut Vec<u8>,
    step: u64,
    placed: &Placed,
) -> Result<(), NoMemory>
    ensures { OnOk result (out.new.items ≡ out.old.items ++ entry_line step placed.now) }
{
    put_u64(alloc, out, step)?;
    out.push(b' ')?;
    put_author(alloc, out, placed.author)?;
    out.push(b' ')?;
    put_entry(alloc, out, &placed.entry)?;
    out.push(b'\n')?;
    Ok(())
}

// Appends the word of an author.
fn put_author(alloc: Global, out: &mut Vec<u8>, author: Author) -> Result<(), NoMemory>
    ensures { OnOk result (out.new.items ≡ out.old.items ++ author_word author) }
{
    match author {
        Author::Kept => {
            out.push(b'k')?;
            Ok(())
        }
        Author::Script(number) => put_numbered(alloc, out, b's', number),
        Author::Recompute(number) => put_numbered(alloc, out, b'r', number),
        Author::Bisect(number) => put_numbered(alloc, out, b'b', number),
    }
}

// Appends a letter and a number.
fn put_numbered(alloc: Global, out: &mut Vec<u8>, letter: u8, number: u8) -> Result<(), NoMemory>
    ensures { OnOk result (out.new.items ≡ out.old.items ++ letter ∷ decimal number) }
{
    out.push(letter)?;
    put_u64(alloc, out, u64::from(number))
}
