//! Tokens: runs of white space, words, numbers and texts, each read at once.
ghost use Rattle.std.specs.{Prelude.{◌≡◌, ℕ, ◌+◌, ◌<◌, ◌≤◌, length, slice_index, false, IsTrue, IfOk, IfErr}, Char.encode_utf8, Str.{IsUtf8, IsCharBoundary}};
ghost use Rattle.json_text.specs.Reached.{ReadsWord, StopsWord, ReadsDigits, StopsDigits, ReadsContent, ReadsText, StopsText};

use crate::class::{Class, Plain};
use crate::lexeme::{digits_after, moves};
use crate::shared::{SharedText, Source};
use crate::state::{Digits, Move, Stop, Within};
use std::alloc::Global;

/// The place of the first byte from `start` on that isn't of a class.
pub(crate) fn run_end<C: Class>(bytes: &[u8], start: usize) -> usize
    requires { start ≤ length bytes.now }
    ensures within { (start ≤ result) × (result ≤ length bytes.now) }
    ensures run { (k : ℕ) → start ≤ k → k < result → IsTrue (C.test (slice_index bytes.now k)) }
    ensures stops { result < length bytes.now → C.test (slice_index bytes.now result) ≡ false }
{
    let mut end = start;
    while end < bytes.len() && C::has(bytes[end]) {
        end += 1;
    }
    end
}

/// Reads the letters of a word that are left.
pub(crate) fn read_word(bytes: &[u8], place: &mut usize, left: &[u8]) -> Result<(), Stop>
    requires { place.old ≤ length bytes.now }
    ensures place { (place.old ≤ place.new) × (place.new ≤ length bytes.now) }
    ensures reads { IfOk result (λ _. ReadsWord bytes.now place.old place.new left.now) }
    ensures stops { IfErr result (λ stop. (stop ≡ Stop.Refused)
        × StopsWord bytes.now place.old place.new left.now) }
{
    for letter in left {
        if *place < bytes.len() && bytes[*place] == *letter {
            *place += 1;
        } else {
            return Err(Stop::Refused);
        }
    }
    Ok(())
}

/// Reads on in a number, from this place in it, to the first byte that does not go on with it.
pub(crate) fn read_digits(bytes: &[u8], place: &mut usize, first: Digits) -> Digits
    requires { place.old ≤ length bytes.now }
    ensures place { (place.old ≤ place.new) × (place.new ≤ length bytes.now) }
    ensures reads { ReadsDigits bytes.now place.old place.new first result }
    ensures stops { StopsDigits bytes.now place.new result }
    ensures ascii { (k : ℕ) → place.old ≤ k → k < place.new → slice_index bytes.now k < 128 }
{
    let mut last = first;
    while *place < bytes.len() {
        match digits_after(bytes[*place], last) {
            Some(next) => last = next,
            None => return last,
        }
        *place += 1;
    }
    last
}

/// The character of the escape that begins here with its backslash.
fn read_escape(bytes: &[u8], place: &mut usize) -> Result<char, Stop>
    requires some { place.old < length bytes.now }
    requires backslash { slice_index bytes.now place.old ≡ 92 }
    ensures place { (place.old < place.new) × (place.new ≤ length bytes.now) }
    ensures reads { IfOk result (λ code. ReadsContent bytes.now place.old place.new
        Within.Plain Within.Plain (encode_utf8 code)) }
    ensures stops { IfErr result (λ stop. StopsText stop bytes.now place.old place.new) }
    ensures boundary { IfOk result (λ _. IsUtf8 bytes.now → IsCharBoundary bytes.now place.new) }
{
    *place += 1;
    let mut within = Within::AfterBackslash;
    while *place < bytes.len() {
        let moved = moves(bytes[*place], within);
        match moved {
            Move::Goes(next) => within = next,
            Move::Adds(meant) => {
                *place += 1;
                return Ok(char::from(meant));
            }
            Move::Spells(character) => {
                *place += 1;
                return Ok(character);
            }
            Move::Ends | Move::Refused => return Err(Stop::Refused),
        }
        *place += 1;
    }
    Err(Stop::Refused)
}

/// Reads a text behind its opening quote, and its closing quote.
pub(crate) fn read_content(
    alloc: Global,
    text: &Source,
    place: &mut usize,
) -> Result<SharedText, Stop>
    requires { IsCharBoundary text.now place.old }
    ensures place { (place.old ≤ place.new) × (place.new ≤ length text.now) }
    ensures reads { IfOk result (λ content. ReadsText text.now place.old place.new content) }
    ensures stops { IfErr result (λ stop. StopsText stop text.now place.old place.new) }
{
    let bytes = text.as_bytes();
    let start = *place;
    let end = run_end::<Plain>(bytes, start);
    if end < bytes.len() && bytes[end] == b'"' {
        *place = end + 1;
        return Ok(text.part(start, end)?);
    }
    read_escaped(alloc, text, place)
}

/// The same of a text that may have escapes: its bytes are not those between the quotes.
fn read_escaped(alloc: Global, text: &Source, place: &mut usize) -> Result<SharedText, Stop>
    requires { IsCharBoundary text.now place.old }
    ensures place { (place.old ≤ place.new) × (place.new ≤ length text.now) }
    ensures reads { IfOk result (λ content. ReadsText text.now place.old place.new content) }
    ensures stops { IfErr result (λ stop. StopsText stop text.now place.old place.new) }
{
    let bytes = text.as_bytes();
    let mut content = String::new(alloc);
    loop {
        let end = run_end::<Plain>(bytes, *place);
        content.push_str(&text.as_str()[*place..end])?;
        *place = end;
        if end == bytes.len() {
            return Err(Stop::Refused);
        }
        match bytes[end] {
            b'"' => {
                *place += 1;
                return Ok(SharedText::from_string(content)?);
            }
            b'\\' => content.push(read_escape(bytes, place)?)?,
            _ => return Err(Stop::Refused),
        }
    }
}
