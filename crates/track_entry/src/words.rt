//! Single words of an entry: names, numbers, values and samples.
ghost use Rattle.std.specs.{Prelude.{◌≡◌, ℕ, ℤ, FitsSigned, ◌^◌, ◌<◌, ◌≤◌, List, [], ◌∷◌, ◌++◌, length, drop, decimal, unsigned_abs, IfOk}, Fmt.signed_decimal, Int.w128};
ghost use Rattle.line_text.specs.{Lines.words_of, Names.{IsName, spelling}};
ghost use Rattle.regression_state.specs.{Moves.word, declared.states.State.State as AState};
ghost use Rattle.sample_model.specs.Samples.{Measurement, IsSample};
ghost use Rattle.track_entry.specs.{Texts.sample_words, Readings.Reads};

use crate::fault::EntryFault;
use line_text::{Name, Names, names_law, next_word, read_i64, read_i128, read_u64};
use regression_state::{State, read_state};
use sample_model::Sample;
use std::alloc::Global;

// The greatest magnitude of a value.
const VALUE_LIMIT: u64 = 10_000_000_000_000_000;

// The greatest number of 8 bits.
const BYTE_LIMIT: u64 = 255;

// The most bytes of a metric's name.
pub const METRIC_LIMIT: usize = 64;

// The name of the next word, and where the word ends.
pub fn name_at(
    alloc: Global,
    names: &mut Names,
    text: &[u8],
    at: usize,
) -> Result<(Name, usize), EntryFault>
    requires { at ≤ length text.now }
    ensures placed { IfOk result (λ read. (at < read.1) × (read.1 ≤ length text.now)) }
    ensures reads { (name : List ℕ) (more : List (List ℕ)) → IsName name
        → words_of (drop at text.now) ≡ spelling name ∷ more
        → Reads result (λ read. (read.0 ≡ name) × (words_of (drop read.1 text.now) ≡ more)) }
{
    let Some((from, to)) = next_word(text, at) else {
        return Err(EntryFault::NotEntry);
    };
    names_law();
    let name = names.read(alloc, &text[from..to])?;
    Ok((name, to))
}

// The number of the next word, and where the word ends.
pub fn number_at(text: &[u8], at: usize) -> Result<(u64, usize), EntryFault>
    requires { at ≤ length text.now }
    ensures placed { IfOk result (λ read. (at < read.1) × (read.1 ≤ length text.now)) }
    ensures reads { (number : ℕ) (more : List (List ℕ)) → number < 2 ^ 64
        → words_of (drop at text.now) ≡ decimal number ∷ more
        → Reads result (λ read. (read.0 ≡ number) × (words_of (drop read.1 text.now) ≡ more)) }
{
    let Some((from, to)) = next_word(text, at) else {
        return Err(EntryFault::NotEntry);
    };
    let Some(number) = read_u64(&text[from..to]) else {
        return Err(EntryFault::NotEntry);
    };
    Ok((number, to))
}

// The numbers of the next two words, and where the second of them ends.
pub fn pair_at(text: &[u8], at: usize) -> Result<(u64, u64, usize), EntryFault>
    requires { at ≤ length text.now }
    ensures placed { IfOk result (λ read. (at < read.2) × (read.2 ≤ length text.now)) }
    ensures reads { (first second : ℕ) (more : List (List ℕ)) → first < 2 ^ 64 → second < 2 ^ 64
        → words_of (drop at text.now) ≡ decimal first ∷ decimal second ∷ more
        → Reads result (λ read. (read.0 ≡ first) × (read.1 ≡ second)
        × (words_of (drop read.2 text.now) ≡ more)) }
{
    let (first, behind_first) = number_at(text, at)?;
    let (second, end) = number_at(text, behind_first)?;
    Ok((first, second, end))
}

// The numbers of the last two words.
pub fn last_pair(text: &[u8], at: usize) -> Result<(u64, u64), EntryFault>
    requires { at ≤ length text.now }
    ensures { (first second : ℕ) → first < 2 ^ 64 → second < 2 ^ 64
        → words_of (drop at text.now) ≡ decimal first ∷ decimal second ∷ []
        → Reads result (λ read. (read.0 ≡ first) × (read.1 ≡ second)) }
{
    let (first, second, end) = pair_at(text, at)?;
    end_at(text, end)?;
    Ok((first, second))
}

// The number of 8 bits of the next word, and where the word ends.
pub fn byte_at(text: &[u8], at: usize) -> Result<(u8, usize), EntryFault>
    requires { at ≤ length text.now }
    ensures placed { IfOk result (λ read. (at < read.1) × (read.1 ≤ length text.now)) }
    ensures reads { (number : ℕ) (more : List (List ℕ)) → number < 2 ^ 8
        → words_of (drop at text.now) ≡ decimal number ∷ more
        → Reads result (λ read. (read.0 ≡ number) × (words_of (drop read.1 text.now) ≡ more)) }
{
    let (number, to) = number_at(text, at)?;
    if number > BYTE_LIMIT {
        return Err(EntryFault::NotEntry);
    }
    Ok((number as u8, to))
}

// The state of the next word, and where the word ends.
pub fn state_at(text: &[u8], at: usize) -> Result<(State, usize), EntryFault>
    requires { at ≤ length text.now }
    ensures placed { IfOk result (λ read. (at < read.1) × (read.1 ≤ length text.now)) }
    ensures reads { (state : AState) (more : List (List ℕ))
        → words_of (drop at text.now) ≡ word state ∷ more
        → Reads result (λ read. (read.0 ≡ state) × (words_of (drop read.1 text.now) ≡ more)) }
{
    let Some((from, to)) = next_word(text, at) else {
        return Err(EntryFault::NotEntry);
    };
    let Some(state) = read_state(&text[from..to]) else {
        return Err(EntryFault::NotEntry);
    };
    Ok((state, to))
}

// The value of the next word, and where the word ends.
pub fn value_at(text: &[u8], at: usize) -> Result<(i64, usize), EntryFault>
    requires { at ≤ length text.now }
    ensures small { IfOk result (λ read. unsigned_abs read.0 ≤ 10 ^ 16) }
    ensures placed { IfOk result (λ read. (at < read.1) × (read.1 ≤ length text.now)) }
    ensures reads { (value : ℤ) (more : List (List ℕ)) → unsigned_abs value ≤ 10 ^ 16
        → words_of (drop at text.now) ≡ signed_decimal value ∷ more
        → Reads result (λ read. (read.0 ≡ value) × (words_of (drop read.1 text.now) ≡ more)) }
{
    let Some((from, to)) = next_word(text, at) else {
        return Err(EntryFault::NotEntry);
    };
    let Some(value) = read_i64(&text[from..to]) else {
        return Err(EntryFault::NotEntry);
    };
    if value.unsigned_abs() > VALUE_LIMIT {
        return Err(EntryFault::NotEntry);
    }
    Ok((value, to))
}

// The signed number of the next word, and where the word ends.
pub fn signed_at(text: &[u8], at: usize) -> Result<(i128, usize), EntryFault>
    requires { at ≤ length text.now }
    ensures placed { IfOk result (λ read. (at < read.1) × (read.1 ≤ length text.now)) }
    ensures reads { (value : ℤ) (more : List (List ℕ)) → FitsSigned w128 value
        → words_of (drop at text.now) ≡ signed_decimal value ∷ more
        → Reads result (λ read. (read.0 ≡ value) × (words_of (drop read.1 text.now) ≡ more)) }
{
    let Some((from, to)) = next_word(text, at) else {
        return Err(EntryFault::NotEntry);
    };
    let Some(value) = read_i128(&text[from..to]) else {
        return Err(EntryFault::NotEntry);
    };
    Ok((value, to))
}

// The test and the metric of the next two words, and where the second of them ends.
pub fn series_at(
    alloc: Global,
    names: &mut Names,
    text: &[u8],
    at: usize,
) -> Result<(Name, Name, usize), EntryFault>
    requires { at ≤ length text.now }
    ensures short { IfOk result (λ read. length read.1 ≤ 64) }
    ensures placed { IfOk result (λ read. (at < read.2) × (read.2 ≤ length text.now)) }
    ensures reads { (test metric : List ℕ) (more : List (List ℕ)) → IsName test → IsName metric
        → length metric ≤ 64 → words_of (drop at text.now) ≡ spelling test ∷ spelling metric ∷ more
        → Reads result (λ read. (read.0 ≡ test) × (read.1 ≡ metric)
        × (words_of (drop read.2 text.now) ≡ more)) }
{
    let (test, behind_test) = name_at(alloc, names, text, at)?;
    let (metric, end) = name_at(alloc, names, text, behind_test)?;
    if metric.as_str().len() > METRIC_LIMIT {
        return Err(EntryFault::NotEntry);
    }
    Ok((test, metric, end))
}

// The test and the metric of the next two words, the numbers of the two behind them, and where the last of them ends.
pub fn series_pair_at(
    alloc: Global,
    names: &mut Names,
    text: &[u8],
    at: usize,
) -> Result<(Name, Name, u64, u64, usize), EntryFault>
    requires { at ≤ length text.now }
    ensures placed { IfOk result (λ read. read.4 ≤ length text.now) }
    ensures reads { (test metric : List ℕ) (first second : ℕ) (more : List (List ℕ))
        → IsName test → IsName metric → length metric ≤ 64 → first < 2 ^ 64 → second < 2 ^ 64
        → words_of (drop at text.now)
        ≡ spelling test ∷ spelling metric ∷ decimal first ∷ decimal second ∷ more
        → Reads result (λ read. (read.0 ≡ test) × (read.1 ≡ metric) × (read.2 ≡ first)
        × (read.3 ≡ second) × (words_of (drop read.4 text.now) ≡ more)) }
{
    let (test, metric, behind_metric) = series_at(alloc, names, text, at)?;
    let (first, second, end) = pair_at(text, behind_metric)?;
    Ok((test, metric, first, second, end))
}

// The sample of the next three words, and where the last of them ends.
pub fn sample_at(
    alloc: Global,
    names: &mut Names,
    text: &[u8],
    at: usize,
) -> Result<(Sample, usize), EntryFault>
    requires { at ≤ length text.now }
    ensures placed { IfOk result (λ read. (at < read.1) × (read.1 ≤ length text.now)) }
    ensures reads { (m : Measurement) (more : List (List ℕ)) → IsSample m
        → words_of (drop at text.now) ≡ sample_words m ++ more
        → Reads result (λ read. (read.0 ≡ m) × (words_of (drop read.1 text.now) ≡ more)) }
{
    let (test, metric, behind_metric) = series_at(alloc, names, text, at)?;
    let (value, end) = value_at(text, behind_metric)?;
    let sample = Sample {
        test,
        metric,
        value,
    };
    Ok((sample, end))
}

// Whether no word follows.
pub fn end_at(text: &[u8], at: usize) -> Result<(), EntryFault>
    requires { at ≤ length text.now }
    ensures { words_of (drop at text.now) ≡ [] → Reads result (λ _. Unit {0}) }
{
    if next_word(text, at).is_some() {
        return Err(EntryFault::NotEntry);
    }
    Ok(())
}
