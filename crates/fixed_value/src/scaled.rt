//! The scaled value of a numeral: its value in units of a decimal place.
ghost use Rattle.std.specs.Prelude.{◌≡◌, ℤ, pos, ◌+ℤ◌, ◌+◌, ◌*◌, ◌^◌, ◌<◌, ◌≤◌, IfOk, OnErr, unsigned_abs};
ghost use Rattle.fixed_value.specs.Scaled.{IsNearest, IsMagnitude, IsMagnitudeTooLarge, IsScaled, IsTooLarge, ScaledIsOne};

use crate::numeral::Numeral;
use crate::signs::with_sign;

/// The scaled value's magnitude is above 10^16.
#[derive(Clone, Copy, Debug, PartialEq, Eq)]
pub struct OutOfRange;

// The largest magnitude of a scaled value.
const LARGEST: u128 = 10_000_000_000_000_000;

// Any digits but 0 times ten to a higher power are above the largest magnitude.
const HIGHEST_POWER: i128 = 16;

/// The numeral's value times 10^d, rounded to the nearest whole number, halves away from zero;
/// `OutOfRange` where the rounded value's magnitude is above 10^16.
///
/// Takes any digits and any exponent, in time that grows with neither; takes no memory.
pub fn scale(numeral: &Numeral, d: u8) -> Result<i64, OutOfRange>
    requires { d ≤ 9 }
    ensures ok { IfOk result (λ value. IsScaled numeral.now d value) }
    ensures within { IfOk result (λ value. unsigned_abs value ≤ 10 ^ 16) }
    ensures err { OnErr result (IsTooLarge numeral.now d) }
{
    let magnitude = magnitude(numeral.digits, numeral.exponent, d)?;
    Ok(with_sign(numeral.negative, magnitude))
}

// The magnitude of digits times ten to the power of the exponent and d.
fn magnitude(digits: u128, exponent: i128, d: u8) -> Result<u64, OutOfRange>
    requires { d ≤ 9 }
    ensures ok { IfOk result (λ a. IsMagnitude digits (exponent +ℤ pos d) a) }
    ensures within { IfOk result (λ a. a ≤ 10 ^ 16) }
    ensures err { OnErr result (IsMagnitudeTooLarge digits (exponent +ℤ pos d)) }
{
    if digits == 0 {
        return Ok(0);
    }
    if exponent > HIGHEST_POWER {
        return Err(OutOfRange);
    }
    let magnitude = at_power(digits, exponent + i128::from(d))?;
    if magnitude > LARGEST {
        return Err(OutOfRange);
    }
    Ok(magnitude as u64)
}

// The digits times ten to the power, rounded where the power is below 0.
fn at_power(digits: u128, power: i128) -> Result<u128, OutOfRange>
    requires { 0 < digits }
    ensures ok { IfOk result (λ a. IsMagnitude digits power a) }
    ensures err { OnErr result (IsMagnitudeTooLarge digits power) }
{
    if power < 0 {
        Ok(rounded(digits, power.unsigned_abs()))
    } else {
        raised(digits, power.unsigned_abs())
    }
}

// The digits with a number of zeros behind.
fn raised(digits: u128, zeros: u128) -> Result<u128, OutOfRange>
    requires { 0 < digits }
    ensures ok { IfOk result (λ a. a ≡ digits * 10 ^ zeros) }
    ensures err { OnErr result (10 ^ 16 < digits * 10 ^ zeros) }
{
    if zeros > 16 {
        return Err(OutOfRange);
    }
    if digits > LARGEST {
        return Err(OutOfRange);
    }
    Ok(digits * 10u128.pow(zeros as u32))
}

// The digits with a number of places left out at the end, rounded.
fn rounded(digits: u128, places: u128) -> u128
    ensures { IsNearest digits places result }
{
    if places > 38 {
        return 0;
    }
    let unit = 10u128.pow(places as u32);
    let above = digits / unit;
    let doubled = 2 * (digits % unit);
    if doubled < unit { above } else { above + 1 }
}

/// A numeral has one scaled value. Does nothing: its contract is what it is for.
pub fn scaled_law()
    ensures { ScaledIsOne }
{}
