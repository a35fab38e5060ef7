//! Numerals, and which text is one.
ghost use Rattle.std.specs.Prelude.{◌≡◌, ℕ, ℤ, List, ◌^◌, ◌<◌, ◌≤◌, length, Some, IfSome, IfNone, IsSomeAnd, unsigned_abs};
ghost use Rattle.fixed_value.specs.{declared.numeral.Numeral.Numeral, Numerals.{IsPower, IsExponent, IsTail, IsNumeralText, NumeralIsOne}};

use crate::digits::{
    after_letter, after_point, are_digits, leading_digits, number_after, split_sign,
};
use crate::signs::{less_places, power_with_sign};

/// The exact value of a numeral: `digits` times ten to the `exponent`, below 0 where `negative`.
///
/// Any three fields are a value, also those that no text has.
#[derive(Clone, Copy, Debug, PartialEq, Eq)]
pub struct Numeral {
    /// Whether a `-` comes first.
    pub negative: bool,
    /// The digits before the exponent, as one number with the point left out.
    pub digits: u128,
    /// The exponent, less the count of digits behind the point.
    pub exponent: i128,
}

impl Numeral {
    /// The numeral of a text: a `+`, a `-` or neither, digits, a `.` and digits or neither, and
    /// `e` or `E` with a sign or none and digits, or neither. None where the text has another form,
    /// more than 40 bytes, or more than 38 digits before the exponent.
    ///
    /// Linear in the length, of which no more than 40 bytes are looked at; takes no memory.
    pub fn read(text: &[u8]) -> Option<Numeral>
        ensures some { IfSome result (λ numeral. IsNumeralText text.now numeral) }
        ensures only { (numeral : Numeral) → IsNumeralText text.now numeral
            → result ≡ Some numeral }
        ensures none { IfNone result ((numeral : Numeral) → ¬ IsNumeralText text.now numeral) }
    {
        if text.len() > 40 {
            return None;
        }
        let (negative, unsigned) = split_sign(text);
        let whole = leading_digits(unsigned);
        if whole == 0 {
            return None;
        }
        let (fraction, power) = read_tail(&unsigned[whole..])?;
        if whole + fraction.len() > 38 {
            return None;
        }
        let digits = number_after(number_after(0, &unsigned[..whole]), fraction);
        Some(Numeral {
            negative,
            digits,
            exponent: less_places(power, fraction.len()),
        })
    }
}

// The whole number that a sign and digits spell.
fn read_power(text: &[u8]) -> Option<i128>
    requires { length text.now ≤ 38 }
    ensures some { IfSome result (λ power. IsPower text.now power) }
    ensures only { (power : ℤ) → IsPower text.now power → result ≡ Some power }
    ensures within { IfSome result (λ power. unsigned_abs power < 10 ^ 38) }
{
    let (negative, digits) = split_sign(text);
    if are_digits(digits) {
        Some(power_with_sign(negative, number_after(0, digits)))
    } else {
        None
    }
}

// The power that an exponent gives; nothing is an exponent of 0.
fn read_exponent(text: &[u8]) -> Option<i128>
    requires { length text.now ≤ 39 }
    ensures some { IfSome result (λ power. IsExponent text.now power) }
    ensures only { (power : ℤ) → IsExponent text.now power → result ≡ Some power }
    ensures within { IfSome result (λ power. unsigned_abs power < 10 ^ 38) }
{
    if text.is_empty() {
        return Some(0);
    }
    match after_letter(text) {
        Some(rest) => read_power(rest),
        None => None,
    }
}

// The digits behind the point, and the power that the exponent gives.
fn read_tail(text: &[u8]) -> Option<(&[u8], i128)>
    requires { length text.now ≤ 39 }
    ensures some { IfSome result (λ tail. IsTail text.now tail.0.now tail.1) }
    ensures only { (fraction : List ℕ) (power : ℤ) → IsTail text.now fraction power
        → IsSomeAnd result (λ tail. (fraction ≡ tail.0.now) × (power ≡ tail.1)) }
    ensures within { IfSome result (λ tail. unsigned_abs tail.1 < 10 ^ 38) }
{
    let Some(behind) = after_point(text) else {
        return Some((&text[..0], read_exponent(text)?));
    };
    let count = leading_digits(behind);
    if count == 0 {
        return None;
    }
    Some((&behind[..count], read_exponent(&behind[count..])?))
}

/// A text is one numeral's at most. Does nothing: its contract is what it is for.
pub fn numeral_law()
    ensures { NumeralIsOne }
{}
