//! One byte more of a number or a text.
ghost use Rattle.std.specs.{Prelude.{◌≡◌, ℕ, ◌/◌, ◌<◌, ◌≤◌, ◌⊎◌, if◌then◌else◌, IfSome}, Char.IsScalar};
ghost use Rattle.json_text.specs.{Classes.{is_blank, is_plain, is_exponent_mark, short_escape, pair_of}, Machine.{first_digit, digits_after, may_end, so_far, with_hex, letter_moves, begins_low, moves, after_unit, IsPlace, IsEscape, IsSoundMove}};

use crate::state::{Digits, Move, Within};

/// A space, a tab, a line feed or a carriage return.
pub(crate) fn is_blank(byte: u8) -> bool
    ensures { result ≡ is_blank byte }
{
    byte == b' ' || byte == b'\t' || byte == b'\n' || byte == b'\r'
}

/// A byte of a text that stands for itself.
pub(crate) fn is_plain(byte: u8) -> bool
    ensures { result ≡ is_plain byte }
{
    32 <= byte && byte != b'"' && byte != b'\\'
}

fn is_exponent_mark(byte: u8) -> bool
    ensures { result ≡ is_exponent_mark byte }
{
    byte == b'e' || byte == b'E'
}

/// The place after a number's first byte.
pub(crate) fn first_digit(byte: u8) -> Option<Digits>
    ensures same { result ≡ first_digit byte }
    ensures ascii { IfSome result (λ _. byte < 128) }
{
    match byte {
        b'-' => Some(Digits::AfterMinus),
        b'0' => Some(Digits::AfterZero),
        b'1'..=b'9' => Some(Digits::InWhole),
        _ => None,
    }
}

/// The place behind a number's whole part, where the byte begins a fraction or an exponent.
fn after_whole(byte: u8) -> Option<Digits>
    ensures same { result ≡ digits_after byte Digits.AfterZero }
    ensures ascii { IfSome result (λ _. byte < 128) }
{
    if byte == b'.' {
        Some(Digits::AfterPoint)
    } else {
        after_fraction(byte)
    }
}

/// The place behind a number's fraction, where the byte begins an exponent.
fn after_fraction(byte: u8) -> Option<Digits>
    ensures same { result ≡ (if is_exponent_mark byte then Some Digits.AfterMark else None) }
    ensures ascii { IfSome result (λ _. byte < 128) }
{
    if is_exponent_mark(byte) {
        Some(Digits::AfterMark)
    } else {
        None
    }
}

/// The next place in a number, where the byte goes on with it.
pub(crate) fn digits_after(byte: u8, place: Digits) -> Option<Digits>
    ensures same { result ≡ digits_after byte place }
    ensures ascii { IfSome result (λ _. byte < 128) }
{
    let is_digit = byte.is_ascii_digit();
    match place {
        Digits::AfterMinus => {
            if byte == b'-' {
                None
            } else {
                first_digit(byte)
            }
        }
        Digits::AfterZero => after_whole(byte),
        Digits::InWhole if is_digit => Some(Digits::InWhole),
        Digits::InWhole => after_whole(byte),
        Digits::AfterPoint | Digits::InFraction if is_digit => Some(Digits::InFraction),
        Digits::AfterPoint => None,
        Digits::InFraction => after_fraction(byte),
        _ if is_digit => Some(Digits::InExponent),
        Digits::AfterMark if byte == b'+' || byte == b'-' => Some(Digits::AfterSign),
        _ => None,
    }
}

/// A number may end at this place.
pub(crate) fn may_end(place: Digits) -> bool
    ensures { result ≡ may_end place }
{
    match place {
        Digits::AfterZero | Digits::InWhole | Digits::InFraction | Digits::InExponent => true,
        Digits::AfterMinus | Digits::AfterPoint | Digits::AfterMark | Digits::AfterSign => false,
    }
}

/// The byte that a backslash and this letter stand for.
fn short_escape(letter: u8) -> Option<u8>
    ensures same { result ≡ short_escape letter }
    ensures ascii { IfSome result (λ meant. (letter < 128) × (meant < 128)) }
{
    match letter {
        b'"' | b'\\' | b'/' => Some(letter),
        b'b' => Some(8),
        b'f' => Some(12),
        b'n' => Some(b'\n'),
        b'r' => Some(b'\r'),
        b't' => Some(b'\t'),
        _ => None,
    }
}

/// The number of the hex digits so far, where another has to come.
fn so_far(place: Within) -> Option<u32>
    ensures { result ≡ so_far place }
{
    match place {
        Within::AfterU | Within::AfterHighU(_) => Some(0),
        Within::AfterHex(one) => Some(one),
        Within::AfterTwoHex(two) | Within::AfterHighTwoHex(_, two) => Some(two),
        Within::AfterThreeHex(three) | Within::AfterHighThreeHex(_, three) => Some(three),
        Within::AfterHighHex(_) => Some(0xd),
        _ => None,
    }
}

/// The two hex digits begin a low surrogate.
fn begins_low(two: u32) -> bool
    ensures { result ≡ begins_low two }
{
    0xdc <= two && two < 0xe0
}

/// The character with this code.
fn spelled(code: u32) -> Move
    requires { (code < 0xd800) ⊎ ((0xe000 ≤ code) × (code < 0x110000)) }
    ensures same { result ≡ Move.Spells code }
    ensures scalar { IsScalar code }
{
    match char::from_u32(code) {
        Some(character) => Move::Spells(character),
        None => unreachable!(),
    }
}

/// What a whole code unit does: a high surrogate waits for its low one.
fn after_unit(unit: u32) -> Move
    requires { (unit < 0xdc00) ⊎ ((0xe000 ≤ unit) × (unit < 65536)) }
    ensures same { result ≡ after_unit unit }
    ensures sound { (b : ℕ) → b < 128 → IsSoundMove b result }
{
    if 0xd800 <= unit && unit < 0xdc00 {
        Move::Goes(Within::AfterHigh(unit))
    } else {
        spelled(unit)
    }
}

/// The character of a surrogate pair.
fn pair_of(high: u32, low: u32) -> u32
    requires { (0xd800 ≤ high) × (high < 0xdc00) × (0xdc00 ≤ low) × (low < 0xe000) }
    ensures same { result ≡ pair_of high low }
    ensures range { (0x10000 ≤ result) × (result < 0x110000) }
{
    0x10000 + (high - 0xd800) * 1024 + (low - 0xdc00)
}

/// What a hex digit does, which makes the digits so far this number.
fn with_hex(number: u32, place: Within) -> Move
    requires place { IsPlace place }
    requires number { so_far place ≡ Some (number / 16) }
    ensures same { result ≡ with_hex number place }
    ensures sound { (b : ℕ) → b < 128 → IsSoundMove b result }
{
    match place {
        Within::AfterU => Move::Goes(Within::AfterHex(number)),
        Within::AfterHex(_) if begins_low(number) => Move::Refused,
        Within::AfterHex(_) => Move::Goes(Within::AfterTwoHex(number)),
        Within::AfterTwoHex(_) => Move::Goes(Within::AfterThreeHex(number)),
        Within::AfterThreeHex(_) => after_unit(number),
        Within::AfterHighU(high) if number == 0xd => Move::Goes(Within::AfterHighHex(high)),
        Within::AfterHighHex(high) if begins_low(number) => {
            Move::Goes(Within::AfterHighTwoHex(high, number))
        }
        Within::AfterHighTwoHex(high, _) => Move::Goes(Within::AfterHighThreeHex(high, number)),
        Within::AfterHighThreeHex(high, _) => spelled(pair_of(high, number)),
        _ => Move::Refused,
    }
}

/// What another byte does within an escape, where no hex digit has to come.
fn letter_moves(byte: u8, place: Within) -> Move
    requires place { IsPlace place }
    requires escape { IsEscape place }
    ensures same { result ≡ letter_moves byte place }
    ensures sound { IsSoundMove byte result }
{
    match place {
        Within::AfterBackslash if byte == b'u' => Move::Goes(Within::AfterU),
        Within::AfterBackslash => match short_escape(byte) {
            Some(meant) => Move::Adds(meant),
            None => Move::Refused,
        },
        Within::AfterHigh(high) if byte == b'\\' => { Move::Goes(Within::AfterHighBackslash(high)) }
        Within::AfterHighBackslash(high) if byte == b'u' => { Move::Goes(Within::AfterHighU(high)) }
        _ => Move::Refused,
    }
}

/// What a byte does at a place within an escape.
pub(crate) fn moves(byte: u8, place: Within) -> Move
    requires place { IsPlace place }
    requires escape { IsEscape place }
    ensures same { result ≡ moves byte place }
    ensures sound { IsSoundMove byte result }
{
    let Some(before) = so_far(place) else {
        return letter_moves(byte, place);
    };
    match (byte as char).to_digit(16) {
        Some(digit) => with_hex(before * 16 + digit, place),
        None => Move::Refused,
    }
}
