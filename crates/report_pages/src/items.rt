//! Items of a list that are written as JSON one after another.
ghost use Rattle.std.specs.Prelude.{◌≡◌, ◌++◌, false, map, IfOk, OnOk};
ghost use Rattle.json.specs.Print.{quoted};
ghost use Rattle.serde_json.specs.{Data.{Data, array}, View.{view, items_of}, Written.{comma_if, compact_text, has_float, items_text}};

use crate::NoMemory;
use crate::text::put_bytes;
use serde_json::Value;
use std::alloc::Global;

// What can be an item: it is data with no float.
pub(crate) trait Item {
    ghost shown: { Self → Data };

    // The data as a value.
    fn to_value(&self, alloc: Global) -> Result<Value, NoMemory>
        ensures value { IfOk result (λ made. view made ≡ shown self.now) }
        ensures exact { has_float (shown self.now) ≡ false };
}

// Appends a list, of which one item at a time is there as a value.
pub(crate) fn put_items<T: Item>(
    alloc: Global,
    out: &mut Vec<u8>,
    items: &[T],
) -> Result<(), NoMemory>
    ensures { OnOk result (out.new.items ≡ out.old.items
        ++ compact_text (array (items_of (map (λ x. T.Item.shown x) items.now)))) }
{
    put_bytes(out, b"[")?;
    put_all(alloc, out, items)?;
    Ok(())
}

// Appends the items and the bracket behind them.
fn put_all<T: Item>(alloc: Global, out: &mut Vec<u8>, items: &[T]) -> Result<(), NoMemory>
    ensures { OnOk result (out.new.items ≡ out.old.items
        ++ items_text false (items_of (map (λ x. T.Item.shown x) items.now))) }
{
    let mut later = false;
    for item in items {
        put_item(alloc, out, item, later)?;
        later = true;
    }
    put_bytes(out, b"]")?;
    Ok(())
}

// Appends an item, and a comma before it where it comes later than another.
fn put_item<T: Item>(
    alloc: Global,
    out: &mut Vec<u8>,
    item: &T,
    later: bool,
) -> Result<(), NoMemory>
    ensures { OnOk result (out.new.items ≡ out.old.items
        ++ (comma_if later ++ compact_text (T.Item.shown item.now))) }
{
    put_comma(out, later)?;
    let value = item.to_value(alloc)?;
    put_compact(alloc, out, &value)?;
    Ok(())
}

fn put_comma(out: &mut Vec<u8>, later: bool) -> Result<(), NoMemory>
    ensures { OnOk result (out.new.items ≡ out.old.items ++ comma_if later) }
{
    if later {
        return put_bytes(out, b",");
    }
    Ok(())
}

// Appends the text of a value.
fn put_compact(alloc: Global, out: &mut Vec<u8>, value: &Value) -> Result<(), NoMemory>
    ensures { OnOk result (has_float (view value.now) ≡ false
        → out.new.items ≡ out.old.items ++ compact_text (view value.now)) }
{
    let text = value.to_string(alloc)?;
    put_bytes(out, text.as_bytes())?;
    Ok(())
}

// Appends a text between quotes.
pub(crate) fn put_quoted(alloc: Global, out: &mut Vec<u8>, text: &str) -> Result<(), NoMemory>
    ensures { OnOk result (out.new.items ≡ out.old.items ++ quoted text.now) }
{
    let value = Value::String(String::from_str(alloc, text)?);
    put_compact(alloc, out, &value)?;
    Ok(())
}
