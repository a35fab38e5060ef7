//! The first line of a text, and what kind of line a line of benchmark output is.
ghost use Rattle.std.specs.{Prelude.{◌≡◌, ◌∷◌, ◌++◌, ◌↔◌, ◌<◌, [], true, length, codes, IfSome, IfNone, IsTrue, List, ℕ}, Str.IsUtf8};
ghost use Rattle.line_text.specs.Lines.{lines_of};
ghost use Rattle.go_bench_text.specs.{Fields.fields_of, Lines.{IsHead, begins, ArePairs, IsResultLine, IsKind}};

use crate::characters::is_name;
use crate::config::setting_of;
use crate::fields::{are_digits, are_pairs, next_field};
use memchr::memchr;

/// What a line of benchmark output is.
#[derive(Clone, Copy, Debug, PartialEq, Eq)]
pub enum LineKind {
    /// A key, a colon and a value.
    Config,
    /// A name, a count, and pairs of a value and a unit.
    Result,
    /// A line that begins with `Benchmark` and is no result line.
    Broken,
    /// Any other line.
    Other,
}

// Whether the line begins with `Benchmark`.
pub(crate) fn begins(line: &str) -> bool
    ensures { result ≡ begins line.now }
{
    line.starts_with("Benchmark")
}

// The first line of a text, and what stands behind its line feed, if it has one.
pub(crate) fn first_line(text: &str) -> (&str, Option<&str>)
    ensures more { IfSome result.1
        (λ behind. lines_of text.now ≡ result.0.now ∷ lines_of behind.now) }
    ensures last { IfNone result.1 (lines_of text.now ≡ result.0.now ∷ []) }
    ensures line { IsUtf8 result.0.now }
    ensures behind { IfSome result.1 (λ behind. IsUtf8 behind.now) }
    ensures shorter { IfSome result.1 (λ behind. length behind.now < length text.now) }
{
    match memchr(b'\n', text.as_bytes()) {
        Some(end) => (&text[..end], Some(&text[end + 1..])),
        None => (text, None),
    }
}

// What stands behind `Benchmark` in a field that begins with it.
fn name_in(field: &str) -> Option<&str>
    ensures some { IfSome result (λ name. field.now ≡ codes "Benchmark" ++ name.now) }
    ensures text { IfSome result (λ name. IsUtf8 name.now) }
    ensures none { IfNone result ((name : List ℕ) → ¬ (field.now ≡ codes "Benchmark" ++ name)) }
{
    field.strip_prefix("Benchmark")
}

// Whether the fields are one or more pairs of a numeral and a unit.
fn are_some_pairs(text: &str) -> bool
    ensures some { IsTrue result → 0 < length (fields_of text.now) }
    ensures pairs { IsTrue result → ArePairs (fields_of text.now) }
    ensures none { 0 < length (fields_of text.now) → ArePairs (fields_of text.now) → IsTrue result }
{
    match next_field(text) {
        Some(_) => are_pairs(text),
        None => false,
    }
}

// What a line begins with that may be a result line: the name, and what stands behind the count.
pub(crate) fn head_of(line: &str) -> Option<(&str, &str)>
    requires { begins line.now ≡ true }
    ensures some { IfSome result (λ head. IsHead line.now head.0.now (fields_of head.1.now)) }
    ensures name { IfSome result (λ head. IsUtf8 head.0.now) }
    ensures behind { IfSome result (λ head. IsUtf8 head.1.now) }
    ensures none { IfNone result (¬ IsResultLine line.now) }
{
    let (first, rest) = next_field(line)?;
    let name = name_in(first)?;
    let (count, behind) = next_field(rest)?;
    if is_name(name) && are_digits(count) {
        Some((name, behind))
    } else {
        None
    }
}

// Whether the line is a result line.
fn is_result(line: &str) -> bool
    requires { begins line.now ≡ true }
    ensures { IsTrue result ↔ IsResultLine line.now }
{
    match head_of(line) {
        Some((_, behind)) => are_some_pairs(behind),
        None => false,
    }
}

/// What kind of line a line of benchmark output is, by its own characters alone.
///
/// A result line has a name that begins with `Benchmark`, a count, and one or more pairs of a value and a unit, all
/// parted by white space; a line that begins with `Benchmark` and is no result line is broken. A configuration line has
/// a key in lower case, a colon and a value. The rules are those of docs/FORMATS.md.
///
/// Linear in the length of the line; takes no memory.
pub fn line_kind(line: &str) -> LineKind
    ensures { IsKind line.now result }
{
    if begins(line) {
        if is_result(line) {
            LineKind::Result
        } else {
            LineKind::Broken
        }
    } else {
        match setting_of(line) {
            Some(_) => LineKind::Config,
            None => LineKind::Other,
        }
    }
}
