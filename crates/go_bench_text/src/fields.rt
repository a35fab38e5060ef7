//! The fields of a line.
ghost use Rattle.std.specs.{Prelude.{◌≡◌, ◌<◌, ◌≤◌, ◌++◌, ◌∷◌, [], ◌↔◌, ℕ, true, length, slice_index, IfSome, IfNone, IsTrue}, List.list_all, Str.{chars, IsUtf8, trim_start}};
ghost use Rattle.fixed_value.specs.Numerals.{AreDigits, HasNumeral};
ghost use Rattle.go_bench_text.specs.{Characters.is_black, Fields.fields_of, Lines.ArePairs, Parts.{is_stopped, IsBlackByte, IsWhiteByte}};

use crate::characters::split_first;
use fixed_value::Numeral;

// How many bytes in front are of this class.
fn front_count<F: Fn(u8) -> bool>(bytes: &[u8], is_of: F) -> usize
    requires { F.IsAlwaysCallable is_of }
    ensures within { result ≤ length bytes.now }
    ensures each { (k : ℕ) → k < result → F.post is_of (slice_index bytes.now k) true }
{
    let mut count = 0;
    while count < bytes.len() && is_of(bytes[count]) {
        count += 1;
    }
    count
}

// Whether the byte is a graphic ASCII character, as most are; other bytes may be black too.
fn is_graphic(byte: u8) -> bool
    ensures { IsTrue result → IsBlackByte byte }
{
    b'!' <= byte && byte <= b'~'
}

// Whether the byte is an ASCII character other than white space.
fn is_black_byte(byte: u8) -> bool
    ensures { IsTrue result ↔ IsBlackByte byte }
{
    byte.is_ascii() && !char::from(byte).is_whitespace()
}

// Whether the byte is an ASCII character that is white space.
fn is_white_byte(byte: u8) -> bool
    ensures { IsTrue result ↔ IsWhiteByte byte }
{
    byte.is_ascii() && char::from(byte).is_whitespace()
}

// Whether the bytes end there, or have ASCII white space there.
fn stops_at(bytes: &[u8], at: usize) -> bool
    ensures { IsTrue result → at < length bytes.now → IsWhiteByte (slice_index bytes.now at) }
{
    match bytes.get(at) {
        Some(byte) => is_white_byte(*byte),
        None => true,
    }
}

// A text without the white space in front. Most texts are ASCII, so that is passed byte by byte.
fn without_white(text: &str) -> &str
    ensures trim { result.now ≡ trim_start text.now }
    ensures shorter { length result.now ≤ length text.now }
{
    let rest = &text[front_count(text.as_bytes(), is_white_byte)..];
    match rest.as_bytes() {
        [first, ..] if is_black_byte(*first) => rest,
        _ => rest.trim_start(),
    }
}

// The characters before the first white space, and what follows them. Most texts are ASCII, so that is passed byte by byte.
fn split_black(text: &str) -> (&str, &str)
    ensures joined { text.now ≡ result.0.now ++ result.1.now }
    ensures black { list_all is_black (chars result.0.now) ≡ true }
    ensures stopped { is_stopped (chars result.1.now) ≡ true }
    ensures front { IsUtf8 result.0.now }
    ensures back { IsUtf8 result.1.now }
{
    let end = front_count(text.as_bytes(), is_graphic);
    if stops_at(text.as_bytes(), end) {
        return text.split_at(end);
    }
    let mut rest = &text[end..];
    while let Some((c, more)) = split_first(rest) {
        if c.is_whitespace() {
            return text.split_at(text.len() - rest.len());
        }
        rest = more;
    }
    (text, rest)
}

// The first field of a text, and what follows it; none where there is only white space.
pub(crate) fn next_field(text: &str) -> Option<(&str, &str)>
    ensures some { IfSome result (λ cut. fields_of text.now ≡ cut.0.now ∷ fields_of cut.1.now) }
    ensures none { IfNone result (fields_of text.now ≡ []) }
    ensures some_bytes { IfSome result (λ cut. 0 < length cut.0.now) }
    ensures field { IfSome result (λ cut. IsUtf8 cut.0.now) }
    ensures more { IfSome result (λ cut. IsUtf8 cut.1.now) }
    ensures shorter { IfSome result (λ cut. length cut.1.now < length text.now) }
{
    let from = without_white(text);
    if from.is_empty() {
        return None;
    }
    Some(split_black(from))
}

// Whether the field is decimal digits.
pub(crate) fn are_digits(field: &str) -> bool
    ensures { IsTrue result ↔ AreDigits field.now }
{
    for byte in field.as_bytes() {
        if !byte.is_ascii_digit() {
            return false;
        }
    }
    !field.is_empty()
}

// Whether the field is a numeral.
fn is_numeral(field: &str) -> bool
    ensures { IsTrue result ↔ HasNumeral field.now }
{
    match Numeral::read(field.as_bytes()) {
        Some(_) => true,
        None => false,
    }
}

// Whether the fields are pairs of a numeral and a unit.
pub(crate) fn are_pairs(text: &str) -> bool
    ensures { IsTrue result ↔ ArePairs (fields_of text.now) }
{
    let mut rest = text;
    while let Some((value, behind)) = next_field(rest) {
        let Some((unit, more)) = next_field(behind) else {
            return false;
        };
        if unit.len() > 64 || !is_numeral(value) {
            return false;
        }
        rest = more;
    }
    true
}
