//! Lists of texts: their pieces, and whether they are all different.
ghost use Rattle.std.specs.{Prelude.{◌≡◌, ◌≢◌, ◌<◌, ◌↔◌, length, All, AllPairs, Contains, IsTrue, IfOk, IfSome}, List.slice_split};
ghost use Rattle.command_words.specs.{Plans.is_comma, Texts.shown};

use crate::NoMemory;
use std::alloc::Global;

// The pieces of the list between its commas. Linear in its length.
pub(crate) fn pieces_of<'a>(alloc: Global, list: &'a str) -> Result<Vec<&'a str>, NoMemory>
    ensures { IfOk result (λ pieces. shown pieces.items ≡ slice_split is_comma list.entry.now) }
{
    let mut pieces = Vec::new(alloc);
    let mut rest = list;
    while let Some((piece, behind)) = rest.split_once(',') {
        pieces.push(piece)?;
        rest = behind;
    }
    pieces.push(rest)?;
    Ok(pieces)
}

// Whether the text is one of them.
pub(crate) fn has_text(texts: &[&str], text: &str) -> bool
    ensures { IsTrue result ↔ Contains (shown texts.now) text.now }
{
    let Some((first, rest)) = texts.split_first() else {
        return false;
    };
    if is_same(first, text) {
        return true;
    }
    has_text(rest, text)
}

// Whether they are the same.
pub(crate) fn is_same(one: &str, other: &str) -> bool
    ensures { IsTrue result ↔ (one.now ≡ other.now) }
{
    one == other
}

// Whether they are all different. Quadratic in their number.
pub(crate) fn are_apart(texts: &[&str]) -> bool
    ensures { IsTrue result ↔ AllPairs ◌≢◌ (shown texts.now) }
{
    let Some((first, rest)) = texts.split_first() else {
        return true;
    };
    if has_text(rest, first) {
        return false;
    }
    are_apart(rest)
}

// Whether none is empty.
pub(crate) fn all_named(texts: &[&str]) -> bool
    ensures { IsTrue result ↔ All (λ text. 0 < length text) (shown texts.now) }
{
    let Some((first, rest)) = texts.split_first() else {
        return true;
    };
    if first.is_empty() {
        return false;
    }
    all_named(rest)
}

// Whether the text, if there is one, isn't empty.
pub(crate) fn is_named(text: Option<&str>) -> bool
    ensures { IsTrue result ↔ IfSome text.entry (λ text. 0 < length text.now) }
{
    match text {
        Some(text) => !text.is_empty(),
        None => true,
    }
}
