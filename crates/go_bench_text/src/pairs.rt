//! The pairs of a result line, each read once.
ghost use Rattle.std.specs.Prelude.{◌≡◌, ◌<◌, false, length, IfOk, IsTrue};
ghost use Rattle.go_bench_text.specs.{Fields.fields_of, Lines.ArePairs, Pairs.{IsReadAs, ReadsPairs, HasLargePair}};

use crate::fault::LineFault;
use crate::fields::{are_pairs, next_field};
use metric_value::{ValueFault, value_of};
use smallvec::SmallVec;

// A unit, and a value by it.
#[derive(Clone, Copy, Default)]
pub(crate) struct Pair<'a> {
    pub(crate) unit: &'a str,
    pub(crate) value: i64,
}

// The pairs of a line: few enough, they take no memory.
pub(crate) type Pairs<'a> = SmallVec<Pair<'a>, 4>;

// What a value and a unit are.
enum PairRead<'a> {
    // A pair with its value in range.
    InRange(Pair<'a>),
    // A pair whose value is out of range.
    OutOfRange,
    // No pair: the value is no numeral, or the unit is too long.
    NoPair,
}

// Reads a value and its unit.
fn read_pair<'a>(value: &str, unit: &'a str) -> PairRead<'a>
    requires { 0 < length unit.now }
    ensures { IsReadAs value.now unit.now result }
{
    if unit.len() > 64 {
        return PairRead::NoPair;
    }
    match value_of(unit.as_bytes(), value.as_bytes()) {
        Ok(value) => PairRead::InRange(Pair { unit, value }),
        Err(ValueFault::OutOfRange) => PairRead::OutOfRange,
        Err(ValueFault::NoNumeral) => PairRead::NoPair,
    }
}

// Reads the fields behind a count. Whether they are one or more pairs; if so, and if all are in range, these are the pairs.
pub(crate) fn read_pairs<'a>(text: &'a str, pairs: &mut Pairs<'a>) -> Result<bool, LineFault>
    ensures read { IfOk result (λ paired. IsTrue paired
        → ReadsPairs (fields_of text.now) pairs.new.items) }
    ensures none { IfOk result (λ paired. paired ≡ false
        → 0 < length (fields_of text.now) → ¬ ArePairs (fields_of text.now)) }
    ensures over { result ≡ Err LineFault.OutOfRange → HasLargePair (fields_of text.now) }
{
    pairs.clear();
    let mut rest = text;
    while let Some((value, behind)) = next_field(rest) {
        let Some((unit, more)) = next_field(behind) else {
            return Ok(false);
        };
        match read_pair(value, unit) {
            PairRead::InRange(pair) => {
                let Ok(()) = pairs.push(pair) else {
                    return Err(LineFault::NoMemory);
                };
            }
            PairRead::OutOfRange => return over_or_broken(more),
            PairRead::NoPair => return Ok(false),
        }
        rest = more;
    }
    Ok(!pairs.is_empty())
}

// What a line is whose pairs in front of these fields have a value out of range.
fn over_or_broken(text: &str) -> Result<bool, LineFault>
    ensures none { IfOk result (λ paired. (paired ≡ false) × ¬ ArePairs (fields_of text.now)) }
    ensures over { result ≡ Err LineFault.OutOfRange → ArePairs (fields_of text.now) }
{
    if are_pairs(text) {
        Err(LineFault::OutOfRange)
    } else {
        Ok(false)
    }
}
