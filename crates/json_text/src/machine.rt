//! Reading token by token: what is open lies on a stack, and the state says what has to come.
ghost use Rattle.std.specs.Prelude.{◌≡◌, ◌+◌, ◌^◌, ◌<◌, ◌≤◌, length, slice_index, false, IfOk, IfErr, option_map};
ghost use Rattle.json_text.specs.Classes.{is_blank};
ghost use Rattle.json_text.specs.Machine as machine;
ghost use Rattle.json_text.specs.{Places.most_levels, Reached.{Stands, ReadsWord, StopsWord}, States.{frames_of, mode_of, StepGives, Arrives, ReadsNumber, StopsNumber, ReadsQuoted, StopsQuoted}, View.{tree_of, members_view}};

use crate::lexeme::{first_digit, may_end};
use crate::shared::{SharedText, Source};
use crate::state::{Awaits, Open, Stop};
use crate::token::{read_content, read_digits, read_word};
use crate::tree::{Json, JsonList, JsonMembers, Member};
use std::alloc::Global;

/// How many levels of lists and objects may lie in one another.
const MOST_LEVELS: usize = 32;

/// The spelling of the number that begins here.
fn read_number(text: &Source, place: &mut usize) -> Result<SharedText, Stop>
    requires { place.old < length text.now }
    ensures place { (place.old ≤ place.new) × (place.new ≤ length text.now) }
    ensures reads { IfOk result (λ spelling. ReadsNumber text.now place.old place.new spelling) }
    ensures stops { IfErr result (λ stop. StopsNumber stop text.now place.old place.new) }
{
    let bytes = text.as_bytes();
    let start = *place;
    let Some(first) = first_digit(bytes[start]) else {
        return Err(Stop::Refused);
    };
    *place += 1;
    let last = read_digits(bytes, place, first);
    if may_end(last) {
        Ok(text.part(start, *place)?)
    } else {
        Err(Stop::Refused)
    }
}

/// The text between quotes that begins here.
fn read_quoted(alloc: Global, text: &Source, place: &mut usize) -> Result<SharedText, Stop>
    requires { place.old < length text.now }
    ensures place { (place.old ≤ place.new) × (place.new ≤ length text.now) }
    ensures reads { IfOk result (λ content. ReadsQuoted text.now place.old place.new content) }
    ensures stops { IfErr result (λ stop. StopsQuoted stop text.now place.old place.new) }
{
    if text.as_bytes()[*place] != b'"' {
        return Err(Stop::Refused);
    }
    *place += 1;
    read_content(alloc, text, place)
}

/// The state behind a bracket that opens a list or an object.
fn open(stack: &Vec<Open>, place: &mut usize, next: Awaits) -> Result<Awaits, Stop>
    requires room { length stack.now.items ≤ most_levels }
    requires some { place.old + 1 < 2 ^ 64 }
    ensures opens { IfOk result (λ opened. (opened ≡ next)
        × (length stack.now.items < most_levels) × (place.new ≡ place.old + 1)) }
    ensures full { IfErr result (λ stop. (stop ≡ Stop.TooDeep)
        × (length stack.now.items ≡ most_levels) × (place.new ≡ place.old)) }
{
    if stack.len() == MOST_LEVELS {
        return Err(Stop::TooDeep);
    }
    *place += 1;
    Ok(next)
}

/// The state behind a word with this value, whose first letter stands here and whose other letters these are.
fn word(bytes: &[u8], place: &mut usize, left: &[u8], value: Json) -> Result<Awaits, Stop>
    requires { place.old < length bytes.now }
    ensures place { (place.old < place.new) × (place.new ≤ length bytes.now) }
    ensures reads { IfOk result (λ next. (next ≡ Awaits.Ended value)
        × ReadsWord bytes.now (place.old + 1) place.new left.now) }
    ensures stops { IfErr result (λ stop. (stop ≡ Stop.Refused)
        × StopsWord bytes.now (place.old + 1) place.new left.now) }
{
    *place += 1;
    read_word(bytes, place, left)?;
    Ok(Awaits::Ended(value))
}

/// The state behind the first token of a value.
fn begin(alloc: Global, stack: &Vec<Open>, text: &Source, place: &mut usize) -> Result<Awaits, Stop>
    requires room { length stack.now.items ≤ most_levels }
    requires some { place.old < length text.now }
    requires black { is_blank (slice_index text.now place.old) ≡ false }
    requires stands { Stands text.now place.old (machine.value, frames_of stack.now.items) }
    ensures place { place.new ≤ length text.now }
    ensures arrives { Arrives result text.now place.old place.new stack.now.items }
{
    let bytes = text.as_bytes();
    match bytes[*place] {
        b'[' => open(stack, place, Awaits::FirstItem),
        b'{' => open(stack, place, Awaits::FirstKey),
        b'"' => Ok(Awaits::Ended(Json::Text(read_quoted(alloc, text, place)?))),
        b'n' => word(bytes, place, b"ull", Json::Null),
        b't' => word(bytes, place, b"rue", Json::Bool(true)),
        b'f' => word(bytes, place, b"alse", Json::Bool(false)),
        _ => Ok(Awaits::Ended(Json::Number(read_number(text, place)?))),
    }
}

/// The state behind the first token of a list.
fn first_item(
    alloc: Global,
    stack: &mut Vec<Open>,
    text: &Source,
    place: &mut usize,
) -> Result<Awaits, Stop>
    requires room { length stack.old.items < most_levels }
    requires some { place.old < length text.now }
    requires black { is_blank (slice_index text.now place.old) ≡ false }
    requires stands { Stands text.now place.old (machine.first_item, frames_of stack.old.items) }
    ensures place { place.new ≤ length text.now }
    ensures arrives { Arrives result text.now place.old place.new stack.new.items }
{
    let items = JsonList::new(alloc);
    if text.as_bytes()[*place] == b']' {
        *place += 1;
        return Ok(Awaits::Ended(Json::List(items)));
    }
    stack.push(Open::List(items))?;
    begin(alloc, stack, text, place)
}

/// The state behind the first token of an object.
fn first_key(
    alloc: Global,
    stack: &Vec<Open>,
    text: &Source,
    place: &mut usize,
) -> Result<Awaits, Stop>
    requires room { length stack.now.items < most_levels }
    requires some { place.old < length text.now }
    requires black { is_blank (slice_index text.now place.old) ≡ false }
    requires stands { Stands text.now place.old (machine.first_key, frames_of stack.now.items) }
    ensures place { place.new ≤ length text.now }
    ensures arrives { Arrives result text.now place.old place.new stack.now.items }
{
    let members = JsonMembers::new(alloc);
    if text.as_bytes()[*place] == b'}' {
        *place += 1;
        return Ok(Awaits::Ended(Json::Object(members)));
    }
    Ok(Awaits::Colon(members, read_quoted(alloc, text, place)?))
}

/// What a colon does behind a key.
#[tactic(auto, using(crate::proofs::Stack::frames_end))]
fn colon(
    stack: &mut Vec<Open>,
    members: JsonMembers,
    key: SharedText,
    byte: u8,
) -> Result<Awaits, Stop>
    requires room { length stack.old.items < most_levels }
    requires black { is_blank byte ≡ false }
    ensures { StepGives result stack.new.items
        (machine.step byte (machine.colon (members_view members) key) (frames_of stack.old.items)) }
{
    if byte != b':' {
        return Err(Stop::Refused);
    }
    stack.push(Open::Member(members, key))?;
    Ok(Awaits::Value)
}

/// What a comma or a closing bracket does behind a value.
#[tactic(auto, using(crate::proofs::Stack::frames_pop, crate::proofs::Stack::frames_end))]
fn close(stack: &mut Vec<Open>, value: Json, byte: u8) -> Result<Awaits, Stop>
    requires { length stack.old.items ≤ most_levels }
    ensures { StepGives result stack.new.items
        (machine.close byte (tree_of value) (frames_of stack.old.items)) }
{
    match stack.pop() {
        None => Err(Stop::Refused),
        Some(Open::List(mut items)) => {
            items.push(value)?;
            match byte {
                b',' => {
                    stack.push(Open::List(items))?;
                    Ok(Awaits::Value)
                }
                b']' => Ok(Awaits::Ended(Json::List(items))),
                _ => Err(Stop::Refused),
            }
        }
        Some(Open::Member(mut members, key)) => {
            members.push(Member::new(key, value))?;
            match byte {
                b',' => Ok(Awaits::NextKey(members)),
                b'}' => Ok(Awaits::Ended(Json::Object(members))),
                _ => Err(Stop::Refused),
            }
        }
    }
}

/// The state behind one token more.
pub(crate) fn step(
    alloc: Global,
    stack: &mut Vec<Open>,
    awaits: Awaits,
    text: &Source,
    place: &mut usize,
) -> Result<Awaits, Stop>
    requires room { machine.own_level (mode_of awaits) + length stack.old.items ≤ most_levels }
    requires some { place.old < length text.now }
    requires black { is_blank (slice_index text.now place.old) ≡ false }
    requires stands { Stands text.now place.old (mode_of awaits, frames_of stack.old.items) }
    ensures place { place.new ≤ length text.now }
    ensures arrives { Arrives result text.now place.old place.new stack.new.items }
{
    let byte = text.as_bytes()[*place];
    match awaits {
        Awaits::Value => begin(alloc, stack, text, place),
        Awaits::FirstItem => first_item(alloc, stack, text, place),
        Awaits::FirstKey => first_key(alloc, stack, text, place),
        Awaits::NextKey(members) => Ok(Awaits::Colon(members, read_quoted(alloc, text, place)?)),
        Awaits::Colon(members, key) => {
            let next = colon(stack, members, key, byte)?;
            *place += 1;
            Ok(next)
        }
        Awaits::Ended(value) => {
            let next = close(stack, value, byte)?;
            *place += 1;
            Ok(next)
        }
    }
}

/// The value, where a text may end here.
#[tactic(auto, using(crate::proofs::Stack::length_frames, crate::proofs::Stack::finish_open))]
pub(crate) fn finish(stack: &Vec<Open>, awaits: Awaits) -> Option<Json>
    ensures { option_map tree_of result
        ≡ machine.finish (mode_of awaits) (frames_of stack.now.items) }
{
    if !stack.is_empty() {
        return None;
    }
    match awaits {
        Awaits::Ended(value) => Some(value),
        _ => None,
    }
}
