//! Trees on one line, by which tests say what is read.
use json_text::{Json, JsonFault, read_json};
use std::alloc::{AllocError, Global};

/// Writes a tree on one line: a number after #, a text between bars.
pub fn show(out: &mut String, value: &Json, depth: usize) -> Result<(), AllocError> {
    if depth == 0 {
        return Ok(());
    }
    match value {
        Json::Null => out.push_str("null"),
        Json::Bool(true) => out.push_str("true"),
        Json::Bool(false) => out.push_str("false"),
        Json::Number(spelling) => {
            out.push_str("#")?;
            out.push_str(spelling.as_str())
        }
        Json::Text(text) => {
            out.push_str("|")?;
            out.push_str(text.as_str())?;
            out.push_str("|")
        }
        Json::List(items) => {
            out.push_str("[")?;
            for place in 0..items.len() {
                if let Some(item) = items.get(place) {
                    show(out, item, depth - 1)?;
                }
                out.push_str(",")?;
            }
            out.push_str("]")
        }
        Json::Object(members) => {
            out.push_str("{")?;
            for place in 0..members.len() {
                if let Some(member) = members.get(place) {
                    out.push_str(member.key.as_str())?;
                    out.push_str("=")?;
                    show(out, &member.value, depth - 1)?;
                }
                out.push_str(",")?;
            }
            out.push_str("}")
        }
    }
}

/// What reading answers, on one line.
fn answer(alloc: Global, bytes: &[u8]) -> Result<String, AllocError> {
    match read_json(alloc, bytes) {
        Ok(value) => {
            let mut out = String::new(alloc);
            show(&mut out, &value, 40)?;
            Ok(out)
        }
        Err(JsonFault::NotText(place)) => format!(in alloc; "NotText {place}"),
        Err(JsonFault::NotJson(place)) => format!(in alloc; "NotJson {place}"),
        Err(JsonFault::TooDeep(place)) => format!(in alloc; "TooDeep {place}"),
        Err(JsonFault::NoMemory) => String::from_str(alloc, "NoMemory"),
    }
}

/// Whether reading answers so.
pub fn is_answer(alloc: Global, bytes: &[u8], wanted: &str) -> bool {
    match answer(alloc, bytes) {
        Ok(told) => told.as_str() == wanted,
        Err(_) => false,
    }
}
