//! The text of a row, both ways.
ghost use Rattle.std.specs.Prelude.{◌≡◌, ◌≢◌, ◌↔◌, ℕ, ◌<◌, ◌+◌, List, ◌∷◌, ◌++◌, drop, length, slice_index, IsTrue, IfOk, IfSome, IfNone};
ghost use Rattle.line_text.specs.Names.{spelling, IsName};
ghost use Rattle.store_rows.specs.{Laws.RowsAreUnique, Rows.{Row, machine_row, entry_row, row_text, row_at, IsRowOf}};
ghost use Rattle.store_rows.specs.declared.row.RowFault.TheVariants as fault;

use crate::NoMemory;
use line_text::{Name, NameError, Names, names_law, put_name};
use std::alloc::Global;

/// What a row begins with.
#[derive(Drop)]
pub struct Head {
    /// The machine that it is of.
    pub machine: Name,
    /// Where the entry's text begins in the row; none where the row is of the machine itself.
    pub text: Option<usize>,
}

/// Why bytes give no row.
#[derive(Clone, Copy, Debug, PartialEq, Eq)]
pub enum RowFault {
    /// They are no row.
    NotRow,
    /// There was no memory for the machine's name.
    NoMemory,
}

/// What the bytes of a row say: `machine M`, or `entry M TEXT`, with the canonical spelling of the machine and a single
/// space before and behind it. Linear in the length of the row.
pub fn read_row(alloc: Global, names: &mut Names, bytes: &[u8]) -> Result<Head, RowFault>
    ensures read { IfOk result (λ head.
        IsRowOf bytes.now (row_at bytes.now head.machine head.text)) }
    ensures bad { result ≡ Err fault.NotRow → (row : Row) → ¬ IsRowOf bytes.now row }
{
    if let Some(word) = behind(bytes, b"machine ") {
        let machine = read_spelling(alloc, names, word)?;
        return Ok(Head {
            machine,
            text: None,
        });
    }
    let Some(rest) = behind(bytes, b"entry ") else {
        return Err(RowFault::NotRow);
    };
    let (machine, end) = read_first_word(alloc, names, rest)?;
    Ok(Head {
        machine,
        text: Some(end + 7),
    })
}

/// Appends the row of a machine.
pub fn put_machine_row(alloc: Global, machine: &Name) -> Result<Vec<u8>, NoMemory>
    ensures { IfOk result (λ row. row.items ≡ row_text (machine_row machine.now)) }
{
    let mut row = Vec::from_slice(alloc, b"machine ")?;
    put_name(alloc, &mut row, machine)?;
    Ok(row)
}

/// The row of an entry of a machine, which has this text.
pub fn put_entry_row(alloc: Global, machine: &Name, text: &[u8]) -> Result<Vec<u8>, NoMemory>
    ensures { IfOk result (λ row. row.items ≡ row_text (entry_row machine.now text.now)) }
{
    let mut row = Vec::from_slice(alloc, b"entry ")?;
    put_name(alloc, &mut row, machine)?;
    row.push(b' ')?;
    row.extend_from_slice(text)?;
    Ok(row)
}

// The name whose canonical spelling stands before the first space, and the place of that space.
fn read_first_word(
    alloc: Global,
    names: &mut Names,
    bytes: &[u8],
) -> Result<(Name, usize), RowFault>
    ensures read { IfOk result (λ r.
        (bytes.now ≡ spelling r.0 ++ 32 ∷ drop (r.1 + 1) bytes.now) × IsName r.0) }
    ensures within { IfOk result (λ r. r.1 < length bytes.now) }
    ensures bad { result ≡ Err fault.NotRow →
        (name text : List ℕ) → IsName name → bytes.now ≢ spelling name ++ 32 ∷ text }
{
    names_law();
    let Some(end) = first_space(bytes) else {
        return Err(RowFault::NotRow);
    };
    let (word, _more) = bytes.split_at(end);
    match read_spelling(alloc, names, word) {
        Ok(name) => Ok((name, end)),
        Err(refusal) => Err(refusal),
    }
}

// The name that a word is the canonical spelling of.
fn read_spelling(alloc: Global, names: &mut Names, word: &[u8]) -> Result<Name, RowFault>
    ensures read { IfOk result (λ name. (word.now ≡ spelling name) × IsName name) }
    ensures bad { result ≡ Err fault.NotRow →
        (name : List ℕ) → IsName name → word.now ≢ spelling name }
{
    names_law();
    let name = match names.read(alloc, word) {
        Ok(name) => name,
        Err(NameError::BadName) => return Err(RowFault::NotRow),
        Err(NameError::NoMemory) => return Err(RowFault::NoMemory),
    };
    name.bytes_law();
    match is_spelling(alloc, &name, word) {
        Ok(true) => Ok(name),
        Ok(false) => Err(RowFault::NotRow),
        Err(_) => Err(RowFault::NoMemory),
    }
}

// Whether a word is the canonical spelling of a name.
fn is_spelling(alloc: Global, name: &Name, word: &[u8]) -> Result<bool, NoMemory>
    ensures { IfOk result (λ same. IsTrue same ↔ (word.now ≡ spelling name.now)) }
{
    let mut spelt = Vec::with_capacity(alloc, word.len())?;
    put_name(alloc, &mut spelt, name)?;
    Ok(is_same(&spelt, word))
}

// What stands behind a prefix.
fn behind<'a>(bytes: &'a [u8], prefix: &[u8]) -> Option<&'a [u8]>
    ensures some { IfSome result (λ rest. bytes.now ≡ prefix.now ++ rest.now) }
    ensures none { IfNone result ((rest : List ℕ) → bytes.now ≢ prefix.now ++ rest) }
{
    if bytes.len() < prefix.len() {
        return None;
    }
    let (front, rest) = bytes.split_at(prefix.len());
    if is_same(front, prefix) {
        Some(rest)
    } else {
        None
    }
}

// The place of the first space.
fn first_space(bytes: &[u8]) -> Option<usize>
    ensures some { IfSome result (λ i. (i < length bytes.now) × (slice_index bytes.now i ≡ 32)) }
    ensures first { IfSome result (λ i. (k : ℕ) → k < i → slice_index bytes.now k ≢ 32) }
    ensures none { IfNone result ((k : ℕ) → k < length bytes.now → slice_index bytes.now k ≢ 32) }
{
    for (i, byte) in bytes.iter().enumerate() {
        if *byte == b' ' {
            return Some(i);
        }
    }
    None
}

fn is_same(bytes: &[u8], word: &[u8]) -> bool
    ensures { IsTrue result ↔ (bytes.now ≡ word.now) }
{
    bytes == word
}

/// Bytes are one row at most. Does nothing: its contract is what it is for.
pub fn rows_law()
    ensures { RowsAreUnique }
{
    names_law();
}
