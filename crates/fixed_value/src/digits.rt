//! The parts of a numeral: its sign, its digits, and what marks a fraction or an exponent.
ghost use Rattle.std.specs.{Prelude.{◌≡◌, ◌≢◌, ◌↔◌, ℕ, Bool, List, ◌∷◌, ◌++◌, ◌+◌, ◌*◌, ◌^◌, ◌<◌, ◌≤◌, length, take, slice_index, IsTrue, IfSome, IfNone, OnSome}, Str.Parse.{AllDigits, digits_value_after}, Char.digit_value};
ghost use Rattle.fixed_value.specs.{Bytes.point, Numerals.{AreDigits, IsExponentLetter, IsSign}};

// Whether a sign `-` comes first, and what follows the sign.
pub(crate) fn split_sign(text: &[u8]) -> (bool, &[u8])
    ensures joined { (sign : List ℕ) × (text.now ≡ sign ++ result.1.now) × IsSign sign result.0 }
    ensures only { (sign rest : List ℕ) (negative : Bool) → IsSign sign negative
        → text.now ≡ sign ++ rest → digit_value (slice_index rest 0) < 10
        → (negative ≡ result.0) × (rest ≡ result.1.now) }
    ensures within { length result.1.now ≤ length text.now }
{
    match text {
        [b'+', rest @ ..] => (false, rest),
        [b'-', rest @ ..] => (true, rest),
        _ => (false, text),
    }
}

// What follows a point, if one comes first.
pub(crate) fn after_point(text: &[u8]) -> Option<&[u8]>
    ensures some { IfSome result (λ behind. text.now ≡ point ∷ behind.now) }
    ensures none { IfNone result (slice_index text.now 0 ≢ point) }
{
    match text {
        [b'.', behind @ ..] => Some(behind),
        _ => None,
    }
}

// What follows the letter of an exponent, if one comes first.
pub(crate) fn after_letter(text: &[u8]) -> Option<&[u8]>
    ensures some { IfSome result (λ behind. text.now ≡ slice_index text.now 0 ∷ behind.now) }
    ensures letter { OnSome result (IsExponentLetter (slice_index text.now 0)) }
    ensures none { IfNone result (¬ IsExponentLetter (slice_index text.now 0)) }
{
    match text {
        [b'E' | b'e', behind @ ..] => Some(behind),
        _ => None,
    }
}

// How many digits come first.
pub(crate) fn leading_digits(text: &[u8]) -> usize
    ensures within { result ≤ length text.now }
    ensures digits { AllDigits 10 (take result text.now) }
    ensures stops { 10 ≤ digit_value (slice_index text.now result) }
{
    for (i, byte) in text.iter().enumerate() {
        if !byte.is_ascii_digit() {
            return i;
        }
    }
    text.len()
}

// Whether the text is digits, one or more.
pub(crate) fn are_digits(text: &[u8]) -> bool
    ensures { IsTrue result ↔ AreDigits text.now }
{
    !text.is_empty() && leading_digits(text) == text.len()
}

// The number that digits spell behind those of another number.
pub(crate) fn number_after(before: u128, digits: &[u8]) -> u128
    requires digits { AllDigits 10 digits.now }
    requires fits { (before + 1) * 10 ^ length digits.now ≤ 10 ^ 38 }
    ensures { result ≡ digits_value_after 10 before digits.now }
{
    let mut number = before;
    for digit in digits {
        number = 10 * number + u128::from(*digit - b'0');
    }
    number
}
