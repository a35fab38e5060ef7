//! Words of a request line that are numbers of any size.
ghost use Rattle.std.specs.{Prelude.{◌≡◌, ◌<◌, ◌≤◌, ◌^◌, ◌↔◌, IsTrue, IfSome, IfNone, pos}, Str.Parse.digits_value};
ghost use Rattle.line_text.specs.Numbers.{IsNumber};
ghost use Rattle.segment_model.specs.Limits.{IsLength};
ghost use Rattle.request_model.specs.Factors.{IsFactor};

use line_text::{numbers_law, read_u128};

// The greatest penalty.
const PENALTY_LIMIT: u128 = 1_000_000_000_000_000_000_000_000_000_000_000_000;

// The greatest least length of a segment.
const LENGTH_LIMIT: u64 = 64;

// The greatest factor of a penalty.
const FACTOR_LIMIT: u64 = 1_000;

// Whether a penalty may be made by a factor.
pub(crate) fn is_factor(factor: u64) -> bool
    ensures { IsTrue result ↔ IsFactor factor }
{
    1 <= factor && factor <= FACTOR_LIMIT
}

// The least length that is asked for, if one is given, where it is in range.
pub(crate) fn length_of(given: Option<u64>) -> Option<Option<u8>>
    ensures some { IfSome result (λ length. length ≡ given) }
    ensures fits { IfSome result (λ _. IfSome given IsLength) }
    ensures none { IfNone result (¬ IfSome given IsLength) }
{
    let Some(number) = given else {
        return Some(None);
    };
    if number < 1 || number > LENGTH_LIMIT {
        return None;
    }
    Some(Some(number as u8))
}

// The penalty that a number is, where it is in range.
pub(crate) fn penalty_of(word: &[u8]) -> Option<i128>
    requires { IsNumber word.now }
    ensures some { IfSome result (λ penalty. penalty ≡ pos (digits_value 10 word.now)) }
    ensures small { IfSome result (λ _. digits_value 10 word.now ≤ 10 ^ 36) }
    ensures none { IfNone result (10 ^ 36 < digits_value 10 word.now) }
{
    numbers_law();
    let number = read_u128(word)?;
    if number > PENALTY_LIMIT {
        return None;
    }
    Some(number as i128)
}
