//! A value by a metric, read and written.
ghost use Rattle.std.specs.Prelude.{◌≡◌, ◌≤◌, ◌^◌, ◌++◌, ℤ, IfOk, OnOk, OnErr, unsigned_abs};
ghost use Rattle.fixed_value.specs.Numerals.{HasNumeral};
ghost use Rattle.metric_value.specs.Values.{value_text, IsValueOf, IsOutOfRange, HasNoneInRange, IsReadBackBy, ValueIsOne, ValueIsReadBack};

use crate::NoMemory;
use fixed_value::{Numeral, OutOfRange, fixed_law, numeral_law, put_fixed, scale, scaled_law};
use metric_table::decimals;
use std::alloc::Global;

/// Why a text has no value by a metric.
#[derive(Clone, Copy, Debug, PartialEq, Eq)]
pub enum ValueFault {
    /// The text is no numeral.
    NoNumeral,
    /// The value's magnitude is above 10^16.
    OutOfRange,
}

/// The value of a text by a metric: the numeral, in units of the metric's last decimal, rounded to
/// the nearest whole number, halves away from zero.
///
/// Linear in the lengths of the two, of which no more than 40 bytes of the text are looked at; takes
/// no memory.
pub fn value_of(metric: &[u8], text: &[u8]) -> Result<i64, ValueFault>
    ensures ok { IfOk result (λ value. IsValueOf metric.now text.now value) }
    ensures within { IfOk result (λ value. unsigned_abs value ≤ 10 ^ 16) }
    ensures only { IfOk result (λ value. (other : ℤ)
        → IsValueOf metric.now text.now other → other ≡ value) }

    // A fault only where no value is in range, and each where it is so.
    ensures none { OnErr result (HasNoneInRange metric.now text.now) }
    ensures no_numeral { result ≡ Err ValueFault.NoNumeral → ¬ HasNumeral text.now }
    ensures out_of_range { result ≡ Err ValueFault.OutOfRange → IsOutOfRange metric.now text.now }
{
    value_law();
    let Some(numeral) = Numeral::read(text) else {
        return Err(ValueFault::NoNumeral);
    };
    match scale(&numeral, decimals(metric)) {
        Ok(value) => Ok(value),
        Err(OutOfRange) => Err(ValueFault::OutOfRange),
    }
}

/// Appends the text of a value: with the decimals of the metric, and a `-` where it is below 0. Within
/// 10^16 it is read back as the value.
///
/// Constant time but for the metric's length; changes nothing where there is no memory.
pub fn put_value(
    alloc: Global,
    out: &mut Vec<u8>,
    metric: &[u8],
    value: i64,
) -> Result<(), NoMemory>
    ensures ok { OnOk result (out.new.items ≡ out.old.items ++ value_text metric.now value) }
    ensures err { OnErr result (out.new.items ≡ out.old.items) }
    ensures back { unsigned_abs value ≤ 10 ^ 16 → IsReadBackBy metric.now value }
{
    value_law();
    put_fixed(alloc, out, value, decimals(metric))
}

/// By a metric a text has one value at most, and the text that is written of a value of magnitude at
/// most 10^16 has this value. Does nothing: its contract is what it is for.
pub fn value_law()
    ensures one { ValueIsOne }
    ensures back { ValueIsReadBack }
{
    numeral_law();
    scaled_law();
    fixed_law();
}
