//! Words of a request line that spell names.
ghost use Rattle.std.specs.Prelude.{◌≡◌, ◌↔◌, [], ◌∷◌, IfOk, IfSome, IsTrue};
ghost use Rattle.request_words.specs.{Forms.name_of, Heads.{AreNames, IsFoundIf}, Shortness.{IsShortName, IsShortFor}};

use crate::NoMemory;
use line_text::{Name, NameError, Names, read_name};
use std::alloc::Global;

// The most bytes of a metric's name.
const METRIC_LIMIT: usize = 64;

// What the last of the names of a request is.
#[derive(Clone, Copy)]
pub(crate) enum Last {
    // A metric's, which is short.
    Metric,
    // Another's.
    Any,
}

// The name that a word spells.
fn named(alloc: Global, word: &[u8]) -> Result<Option<Name>, NoMemory>
    ensures some { IfOk result (λ found. IfSome found (λ name. name ≡ name_of word.now)) }
    ensures told { IfOk result (λ found. IsFoundIf found (AreNames (word.now ∷ []))) }
{
    match read_name(alloc, word) {
        Ok(name) => Ok(Some(name)),
        Err(NameError::BadName) => Ok(None),
        Err(NameError::NoMemory) => Err(NoMemory),
    }
}

// The name of a machine that a word spells: the same machines are named again and again.
pub(crate) fn machine_named(
    alloc: Global,
    names: &mut Names,
    word: &[u8],
) -> Result<Option<Name>, NoMemory>
    ensures some { IfOk result (λ found. IfSome found (λ name. name ≡ name_of word.now)) }
    ensures told { IfOk result (λ found. IsFoundIf found (AreNames (word.now ∷ []))) }
{
    match names.read(alloc, word) {
        Ok(name) => Ok(Some(name)),
        Err(NameError::BadName) => Ok(None),
        Err(NameError::NoMemory) => Err(NoMemory),
    }
}

// The last of the names of a request, which this word spells.
fn last_named(alloc: Global, word: &[u8], last: Last) -> Result<Option<Name>, NoMemory>
    ensures some { IfOk result (λ found. IfSome found (λ name. name ≡ name_of word.now)) }
    ensures told { IfOk result
        (λ found. IsFoundIf found (AreNames (word.now ∷ []) × IsShortFor last word.now)) }
{
    let Some(name) = named(alloc, word)? else {
        return Ok(None);
    };
    if is_short_for(last, &name) {
        return Ok(Some(name));
    }
    Ok(None)
}

// Whether a name is short enough.
fn is_short_for(last: Last, name: &Name) -> bool
    ensures { IsTrue result ↔ IsShortName last name.now }
{
    match last {
        Last::Any => true,
        Last::Metric => name.as_str().len() <= METRIC_LIMIT,
    }
}

// The names that two words spell, of which the first is a machine's.
pub(crate) fn two_named(
    alloc: Global,
    names: &mut Names,
    first: &[u8],
    second: &[u8],
    last: Last,
) -> Result<Option<(Name, Name)>, NoMemory>
    ensures some { IfOk result (λ found. IfSome found (λ names.
        (names.0 ≡ name_of first.now) × (names.1 ≡ name_of second.now))) }
    ensures told { IfOk result (λ found. IsFoundIf found
        (AreNames (first.now ∷ second.now ∷ []) × IsShortFor last second.now)) }
{
    let Some(one) = machine_named(alloc, names, first)? else {
        return Ok(None);
    };
    let Some(other) = last_named(alloc, second, last)? else {
        return Ok(None);
    };
    Ok(Some((one, other)))
}

// The names that three words spell, of which the first is a machine's.
pub(crate) fn three_named(
    alloc: Global,
    names: &mut Names,
    first: &[u8],
    second: &[u8],
    third: &[u8],
    last: Last,
) -> Result<Option<(Name, Name, Name)>, NoMemory>
    ensures some { IfOk result (λ found. IfSome found (λ names.
        (names.0 ≡ name_of first.now) × (names.1 ≡ name_of second.now)
        × (names.2 ≡ name_of third.now))) }
    ensures told { IfOk result (λ found. IsFoundIf found
        (AreNames (first.now ∷ second.now ∷ third.now ∷ []) × IsShortFor last third.now)) }
{
    let Some((one, other)) = two_named(alloc, names, first, second, Last::Any)? else {
        return Ok(None);
    };
    let Some(name) = last_named(alloc, third, last)? else {
        return Ok(None);
    };
    Ok(Some((one, other, name)))
}
