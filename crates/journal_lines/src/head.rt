//! The line of a machine, read.
ghost use Rattle.std.specs.Prelude.{◌≡◌, ◌≢◌, ◌<◌, ◌↔◌, ℕ, List, IfOk, IsTrue, true, false};
ghost use Rattle.line_text.specs.Names.{spelling, IsName};
ghost use Rattle.journal_lines.specs.Lines.{IsHead};
ghost use Rattle.journal_lines.specs.declared.fault.LineFault.TheVariants as fault;

use crate::NoMemory;
use crate::fault::LineFault;
use crate::parts::first_word;
use line_text::{Name, NameError, Names, names_law, put_name, read_u64};
use std::alloc::Global;

/// What the line of a machine says.
#[derive(Drop)]
pub struct Head {
    /// The machine.
    pub machine: Name,
    /// How many entries its journal is said to have.
    pub count: u64,
}

/// What the line of a machine says, without its line feed; `NotLine` exactly where the bytes are no such line. Linear in
/// the line.
pub fn read_head(alloc: Global, names: &mut Names, line: &[u8]) -> Result<Head, LineFault>
    ensures read { IfOk result (λ head. IsHead line.now head.machine head.count) }
    ensures bad { result ≡ Err fault.NotLine
        → (machine : List ℕ) (count : ℕ) → ¬ IsHead line.now machine count }
{
    names_law();
    let Some(first) = first_word(line) else {
        return Err(LineFault::NotLine);
    };
    if !is_word(first.word, b"machine") {
        return Err(LineFault::NotLine);
    }
    let Some(second) = first_word(first.rest) else {
        return Err(LineFault::NotLine);
    };
    let Some(third) = first_word(second.rest) else {
        return Err(LineFault::NotLine);
    };
    if !is_word(third.word, b"steps") {
        return Err(LineFault::NotLine);
    }
    let Some(count) = read_u64(third.rest) else {
        return Err(LineFault::NotLine);
    };
    match read_spelling(alloc, names, second.word) {
        Ok(machine) => Ok(Head { machine, count }),
        Err(refusal) => Err(refusal),
    }
}

// Whether bytes are a word.
fn is_word(bytes: &[u8], word: &[u8]) -> bool
    ensures yes { result ≡ true → bytes.now ≡ word.now }
    ensures no { result ≡ false → bytes.now ≢ word.now }
{
    bytes == word
}

// The name that a word is the canonical spelling of.
fn read_spelling(alloc: Global, names: &mut Names, word: &[u8]) -> Result<Name, LineFault>
    ensures read { IfOk result (λ name. (word.now ≡ spelling name) × IsName name) }
    ensures bad { result ≡ Err fault.NotLine →
        (name : List ℕ) → IsName name → word.now ≢ spelling name }
{
    names_law();
    let name = match names.read(alloc, word) {
        Ok(name) => name,
        Err(NameError::BadName) => return Err(LineFault::NotLine),
        Err(NameError::NoMemory) => return Err(LineFault::NoMemory),
    };
    name.bytes_law();
    match is_spelling(alloc, &name, word) {
        Ok(true) => Ok(name),
        Ok(false) => Err(LineFault::NotLine),
        Err(_) => Err(LineFault::NoMemory),
    }
}

// Whether a word is the canonical spelling of a name.
fn is_spelling(alloc: Global, name: &Name, word: &[u8]) -> Result<bool, NoMemory>
    ensures { IfOk result (λ same. IsTrue same ↔ (word.now ≡ spelling name.now)) }
{
    let mut spelt = Vec::with_capacity(alloc, word.len())?;
    put_name(alloc, &mut spelt, name)?;
    Ok(spelt.as_slice() == word)
}
