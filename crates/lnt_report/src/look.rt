//! Members of a JSON object, looked up by their keys.
ghost use Rattle.std.specs.{Prelude.{◌≡◌, if◌then◌else◌, map, Some, None, true, false, IfSome, IfNone, IfOk, option_copied, is_some}, Option.option_map};
ghost use Rattle.json_text.specs.View.{tree_of, entry_of};
ghost use Rattle.lnt_report.specs.Look.{value_at, fields, items_in, is_object, is_list, is_name, name_in, text_in, is_text};

use crate::NoMemory;
use json_text::{Json, Member, Shape};
use line_text::{Name, NameError};
use std::alloc::Global;

// The value of the first member with this key.
fn find<'a>(members: &'a [Member], key: &str) -> Option<&'a Json>
    ensures { option_map tree_of (option_copied result)
        ≡ value_at key.now (map entry_of members.now) }
{
    for member in members {
        if member.key() == key {
            return Some(member.value());
        }
    }
    None
}

// The members of the object at this key.
#[tactic(auto, using(crate::proofs::Lists::entries_of_members))]
pub(crate) fn object_at<'a>(members: &'a [Member], key: &str) -> Option<&'a [Member]>
    ensures some { IfSome result (λ _.
        is_object (value_at key.now (map entry_of members.now)) ≡ true) }
    ensures members { IfSome result (λ inner.
        fields (value_at key.now (map entry_of members.now)) ≡ map entry_of inner.now) }
    ensures none { IfNone result (is_object (value_at key.now (map entry_of members.now)) ≡ false) }
{
    let value = find(members, key)?;
    match value.shape() {
        Shape::Object(inner) => Some(inner),
        _ => None,
    }
}

// The items of the list at this key.
#[tactic(auto, using(crate::proofs::Lists::trees_of_items))]
pub(crate) fn list_at<'a>(members: &'a [Member], key: &str) -> Option<&'a [Json]>
    ensures some { IfSome result (λ _.
        is_list (value_at key.now (map entry_of members.now)) ≡ true) }
    ensures items { IfSome result (λ items.
        items_in (value_at key.now (map entry_of members.now)) ≡ map tree_of items.now) }
    ensures none { IfNone result (is_list (value_at key.now (map entry_of members.now)) ≡ false) }
{
    let value = find(members, key)?;
    match value.shape() {
        Shape::List(items) => Some(items),
        _ => None,
    }
}

// The text at this key.
fn text_at<'a>(members: &'a [Member], key: &str) -> Option<&'a str>
    ensures { option_copied result ≡ text_in (value_at key.now (map entry_of members.now)) }
{
    let value = find(members, key)?;
    match value.shape() {
        Shape::Text(text) => Some(text),
        _ => None,
    }
}

// Whether this text stands at this key.
pub(crate) fn is_text_at(members: &[Member], key: &str, text: &str) -> bool
    ensures { result ≡ is_text text.now (text_in (value_at key.now (map entry_of members.now))) }
{
    match text_at(members, key) {
        Some(found) => found == text,
        None => false,
    }
}

// Whether a text is a name: it has 1 to 256 bytes.
fn is_name(text: &str) -> bool
    ensures { result ≡ is_name text.now }
{
    !text.is_empty() && text.len() <= 256
}

// Whether a name stands at this key.
pub(crate) fn has_name_at(members: &[Member], key: &str) -> bool
    ensures { result ≡ is_some (name_in (value_at key.now (map entry_of members.now))) }
{
    match text_at(members, key) {
        Some(found) => is_name(found),
        None => false,
    }
}

// The name that a text is.
fn name_of(alloc: Global, text: &str) -> Result<Option<Name>, NoMemory>
    ensures { IfOk result (λ name. name ≡ (if is_name text.now then Some text.now else None)) }
{
    if !is_name(text) {
        return Ok(None);
    }
    match Name::of_text(alloc, text.as_bytes()) {
        Ok(name) => Ok(Some(name)),
        Err(NameError::BadName) => Ok(None),
        Err(NameError::NoMemory) => Err(NoMemory),
    }
}

// The name at this key.
pub(crate) fn name_at(
    alloc: Global,
    members: &[Member],
    key: &str,
) -> Result<Option<Name>, NoMemory>
    ensures { IfOk result (λ name. name ≡ name_in (value_at key.now (map entry_of members.now))) }
{
    match text_at(members, key) {
        Some(found) => name_of(alloc, found),
        None => Ok(None),
    }
}
