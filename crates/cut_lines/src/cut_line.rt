//! What one line says.
ghost use Rattle.std.specs.Prelude.{◌≡◌, ℕ, ℤ, ◌^◌, ◌<◌, ◌≤◌, ◌∷◌, length, drop, slice_range, unsigned_abs, IfSome, IfNone, IfOk, IsTrue, ◌++◌};
ghost use Rattle.segment_model.specs.Limits.{IsSmall};
ghost use Rattle.line_text.specs.Lines.{words_of};
ghost use Rattle.cut_lines.specs.{Lines.{IsGood, MayBecomeGood}, LineKinds.{IsKind, AreNumbers, NeverGood}};

use line_text::{next_word, read_i64, read_u64};
use std::alloc::AllocError;

/// The most bytes that a line may have, unless it is skipped.
pub const LINE_LIMIT: usize = 4_096;

/// The greatest magnitude of a value.
const VALUE_LIMIT: u64 = 10_000_000_000_000_000;

/// What a line says.
#[derive(Clone, Copy)]
pub enum LineKind {
    /// It has no word, or begins with `#`.
    Skipped,
    /// An order and a value.
    Cut(u64, i64),
    /// Neither.
    Bad,
}

/// What the line says, which has at most 4,096 bytes.
pub fn line_kind(line: &[u8]) -> LineKind
    requires { length line.now ≤ 4_096 }
    ensures { IsKind line.now result }
{
    if !line.is_empty() && line[0] == b'#' {
        return LineKind::Skipped;
    }
    let Some(first) = next_word(line, 0) else {
        return LineKind::Skipped;
    };
    match two_numbers(line, first) {
        Some(numbers) => LineKind::Cut(numbers.0, numbers.1),
        None => LineKind::Bad,
    }
}

// The order and the value, where the line has two words after the first's ends.
fn two_numbers(line: &[u8], first: (usize, usize)) -> Option<(u64, i64)>
    requires placed { (first.0 ≤ first.1) × (first.1 ≤ length line.now) }
    requires word { words_of line.now
        ≡ slice_range line.now first.0 first.1 ∷ words_of (drop first.1 line.now) }
    ensures some { IfSome result (λ pair. AreNumbers line.now pair.0 pair.1) }
    ensures small { IfSome result (λ pair. IsSmall pair.1) }
    ensures none { IfNone result ((order : ℕ) (value : ℤ) → order < 2 ^ 64 → IsSmall value
        → ¬ AreNumbers line.now order value) }
{
    let second = next_word(line, first.1)?;
    if next_word(line, second.1).is_some() {
        return None;
    }
    let order = read_u64(&line[first.0..first.1])?;
    let value = read_i64(&line[second.0..second.1])?;
    if value.unsigned_abs() > VALUE_LIMIT {
        return None;
    }
    Some((order, value))
}

/// Whether a line that begins so may still become a skipped or a cut line. Where its numbers aren't whole, one of two ends
/// makes it good. The line is left as it was.
pub fn may_become_good(line: &mut Vec<u8>) -> Result<bool, AllocError>
    requires { length line.old.items ≤ 4_096 }
    ensures same { line.new.items ≡ line.old.items }
    ensures some { IfOk result (λ good. IsTrue good → MayBecomeGood line.old.items) }
    ensures none { IfOk result (λ good. (¬ IsTrue good) → NeverGood line.old.items) }
{
    if is_good(line) {
        return Ok(true);
    }
    if is_good_with(line, b" 0")? {
        return Ok(true);
    }
    is_good_with(line, b"1")
}

// Whether the line is good with this end.
fn is_good_with(line: &mut Vec<u8>, end: &[u8]) -> Result<bool, AllocError>
    ensures same { line.new.items ≡ line.old.items }
    ensures some { IfOk result (λ good. IsTrue good → IsGood (line.old.items ++ end.now)) }
    ensures none { IfOk result (λ good. (¬ IsTrue good) → length (line.old.items ++ end.now) ≤ 4_096
        → ¬ IsGood (line.old.items ++ end.now)) }
{
    let length = line.len();
    line.extend_from_slice(end)?;
    let good = is_good(line);
    line.truncate(length);
    Ok(good)
}

// Whether the line is skipped or a cut line; not where it is too long.
fn is_good(line: &[u8]) -> bool
    ensures some { IsTrue result → IsGood line.now }
    ensures none { (¬ IsTrue result) → length line.now ≤ 4_096 → ¬ IsGood line.now }
{
    if line.len() > LINE_LIMIT {
        return false;
    }
    match line_kind(line) {
        LineKind::Bad => false,
        LineKind::Skipped | LineKind::Cut(_, _) => true,
    }
}
