//! What one line says.
ghost use Rattle.std.specs.Prelude.{◌≡◌, ◌<◌, ◌≤◌, ◌↔◌, length, slice_index, IfOk, IsTrue};
ghost use Rattle.commit_lines.specs.{Lines.{IsSkipped, IsGood, EndsWithSpace, MayBecomeName, MayGo}, HasRead.IsKind};

use crate::tries::is_tried;
use indexmap::IndexSet;
use line_text::{Name, NameError, next_word, read_name};
use std::alloc::{AllocError, Global};

/// The most bytes that a line may have, unless it is skipped.
pub const LINE_LIMIT: usize = 4_096;

/// What a line says.
#[derive(Drop)]
pub enum LineKind {
    /// It has no word, or begins with `#`.
    Skipped,
    /// One name.
    Named(Name),
    /// Neither.
    Bad,
}

/// What the line says, which has at most 4,096 bytes.
pub fn line_kind(alloc: Global, line: &[u8]) -> Result<LineKind, AllocError>
    requires { length line.now ≤ 4_096 }
    ensures { IfOk result (IsKind line.now) }
{
    if begins_with_hash(line) {
        return Ok(LineKind::Skipped);
    }
    let Some(first) = next_word(line, 0) else {
        return Ok(LineKind::Skipped);
    };
    if next_word(line, first.1).is_some() {
        return Ok(LineKind::Bad);
    }
    match read_name(alloc, &line[first.0..first.1]) {
        Ok(name) => Ok(LineKind::Named(name)),
        Err(NameError::BadName) => Ok(LineKind::Bad),
        Err(NameError::NoMemory) => Err(AllocError),
    }
}

/// Whether the line has no word, or begins with `#`.
pub fn is_skipped(line: &[u8]) -> bool
    ensures { IsTrue result ↔ IsSkipped line.now }
{
    begins_with_hash(line) || next_word(line, 0).is_none()
}

/// Whether the line says a name that is none of these, or is skipped.
fn is_good(alloc: Global, names: &IndexSet<Name>, line: &[u8]) -> Result<bool, AllocError>
    requires { length line.now ≤ 4_096 }
    ensures { IfOk result (λ good. IsTrue good ↔ IsGood names.now.keys line.now) }
{
    match line_kind(alloc, line)? {
        LineKind::Skipped => Ok(true),
        LineKind::Named(name) => Ok(!names.contains(&name)),
        LineKind::Bad => Ok(false),
    }
}

/// Whether the line, which has begun behind these names, may go on.
pub fn may_go(alloc: Global, names: &IndexSet<Name>, line: &[u8]) -> Result<bool, AllocError>
    requires { length line.now ≤ 4_096 }
    ensures { IfOk result (λ may. IsTrue may ↔ MayGo names.now.keys line.now) }
{
    if ends_with_space(line) {
        return is_good(alloc, names, line);
    }
    may_become_name(alloc, line)
}

// Whether the last byte is a space.
fn ends_with_space(line: &[u8]) -> bool
    ensures { IsTrue result ↔ EndsWithSpace line.now }
{
    match line.split_last() {
        Some((last, _)) => *last == b' ',
        None => false,
    }
}

// Whether the line, behind which no space came, may become a name.
fn may_become_name(alloc: Global, line: &[u8]) -> Result<bool, AllocError>
    requires { ¬ EndsWithSpace line.now }
    ensures { IfOk result (λ may. IsTrue may ↔ MayBecomeName line.now) }
{
    if is_skipped(line) {
        return Ok(true);
    }
    is_tried(alloc, line)
}

// Whether the first byte is `#`.
fn begins_with_hash(line: &[u8]) -> bool
    ensures { IsTrue result ↔ (slice_index line.now 0 ≡ 35) }
{
    !line.is_empty() && line[0] == b'#'
}
