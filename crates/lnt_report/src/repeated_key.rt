//! The search for a key that comes twice in its object.
ghost use Rattle.std.specs.Prelude.{◌≡◌, map, [], List, IfOk, decimal};
ghost use Rattle.json_text.specs.View.{tree_of, entry_of, items_of, members_of};
ghost use Rattle.lnt_report.specs.Rules.{under, repeated_key, repeated_in_items, repeated_in_members};

use crate::NoMemory;
use json_text::{Json, Member, Shape};
use line_text::Text;
use std::alloc::Global;
use std::collections::BTreeMap;

// A path behind a key.
fn under_key(alloc: Global, key: &str, path: &Text) -> Result<Text, NoMemory>
    ensures { IfOk result (λ made. made ≡ under key.now path.now) }
{
    let rest = path.as_str();
    Ok(Text::from_string(format!(in alloc; "{key}.{rest}")?))
}

// A path behind a place.
fn under_place(alloc: Global, place: usize, path: &Text) -> Result<Text, NoMemory>
    ensures { IfOk result (λ made. made ≡ under (decimal place) path.now) }
{
    let rest = path.as_str();
    Ok(Text::from_string(format!(in alloc; "{place}.{rest}")?))
}

// The path of the first member whose key comes again. Linear in the tree, but for the look-ups of
// keys, each in the logarithm of the members before.
#[cycle(repeated)]
pub(crate) fn repeated_key_in(alloc: Global, value: &Json) -> Result<Option<Text>, NoMemory>
    ensures { IfOk result (λ found. found ≡ repeated_key (tree_of value.now)) }
{
    match value.shape() {
        Shape::List(items) => repeated_in_list(alloc, items),
        Shape::Object(members) => repeated_in_object(alloc, members),
        _ => Ok(None),
    }
}

// The same of the items of a list.
#[cycle(repeated)]
fn repeated_in_list(alloc: Global, items: &[Json]) -> Result<Option<Text>, NoMemory>
    ensures { IfOk result (λ found.
        found ≡ repeated_in_items 0 (items_of (map tree_of items.now))) }
{
    for (place, item) in items.iter().enumerate() {
        if let Some(path) = repeated_key_in(alloc, item)? {
            return Ok(Some(under_place(alloc, place, &path)?));
        }
    }
    Ok(None)
}

// The same of the members of an object, among which a key may come again.
#[cycle(repeated)]
fn repeated_in_object(alloc: Global, members: &[Member]) -> Result<Option<Text>, NoMemory>
    ensures { IfOk result (λ found.
        found ≡ repeated_in_members [] (members_of (map entry_of members.now))) }
{
    let mut before: BTreeMap<&str, ()> = BTreeMap::new(alloc);
    for member in members {
        let key = member.key();
        if before.insert(key, ())?.is_some() {
            return Ok(Some(Text::of(alloc, key)?));
        }
        if let Some(path) = repeated_key_in(alloc, member.value())? {
            return Ok(Some(under_key(alloc, key, &path)?));
        }
    }
    Ok(None)
}
