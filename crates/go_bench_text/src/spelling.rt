//! What a test is written by: a value of `pkg` and a name.
ghost use Rattle.std.specs.{Prelude.{◌≡◌, ◌==◌, ◌↔◌, ◌<◌, length, true, ℕ, List, IfSome, IfNone, IsTrue}, List.{list_all, list_any}, Str.chars};
ghost use Rattle.go_bench_text.specs.{Bytes.line_feed, Characters.is_black, Spellings.{is_bare_name, may_set, IsPartedAt, IsFirstPartedAt, IsOwnName, IsWrittenBy}};

use crate::characters::{is_name, split_first};

// Whether no character is white space.
pub(crate) fn are_black(text: &str) -> bool
    ensures { result ≡ list_all is_black (chars text.now) }
{
    let mut rest = text;
    while let Some((c, more)) = split_first(rest) {
        if c.is_whitespace() {
            return false;
        }
        rest = more;
    }
    true
}

// Whether the text can be written behind `Benchmark`.
fn is_bare_name(text: &str) -> bool
    ensures { result ≡ is_bare_name text.now }
{
    is_name(text) && are_black(text)
}

// Whether the bytes hold a line feed.
fn has_feed(bytes: &[u8]) -> bool
    ensures { result ≡ list_any (λ b. b == line_feed) bytes.now }
{
    bytes.contains(&b'\n')
}

// Whether a line can set `pkg` to the text.
fn may_set(text: &str) -> bool
    ensures { result ≡ may_set text.now }
{
    let bytes = text.as_bytes();
    if bytes.is_empty() || has_feed(bytes) {
        return false;
    }
    let first = bytes[0];
    let last = bytes[bytes.len() - 1];
    first != b' ' && first != b'\t' && last != b'\r'
}

// The parts of a test at one of its bytes, where that is a `#` that meets the conditions.
fn parts_at(test: &str, at: usize) -> Option<(&str, &str)>
    requires { at < length test.now }
    ensures some { IfSome result (λ parts. IsPartedAt test.now parts.0.now parts.1.now) }
    ensures there { IfSome result (λ parts. length parts.0.now ≡ at) }
    ensures none { IfNone result ((pkg name : List ℕ)
        → length pkg ≡ at → ¬ IsPartedAt test.now pkg name) }
{
    if test.as_bytes()[at] != b'#' {
        return None;
    }
    let pkg = &test[..at];
    let name = &test[at + 1..];
    if may_set(pkg) && is_bare_name(name) {
        Some((pkg, name))
    } else {
        None
    }
}

// What `pkg` is set to and the name, parted at the first `#` that meets the conditions.
fn first_parts(test: &str) -> Option<(&str, &str)>
    ensures some { IfSome result (λ parts. IsFirstPartedAt test.now parts.0.now parts.1.now) }
    ensures none { IfNone result ((pkg name : List ℕ) → ¬ IsPartedAt test.now pkg name) }
{
    for at in 0..test.len() {
        if let Some(parts) = parts_at(test, at) {
            return Some(parts);
        }
    }
    None
}

// Whether the test is a name.
fn is_own_name(test: &str) -> bool
    ensures { IsTrue result ↔ IsOwnName test.now }
{
    !test.is_empty() && is_bare_name(test)
}

// What `pkg` is set to and the name that a test is written by.
pub(crate) fn written_by(test: &str) -> Option<(&str, &str)>
    ensures some { IfSome result (λ parts. IsWrittenBy test.now parts.0.now parts.1.now) }
    ensures none { IfNone result ((pkg name : List ℕ) → ¬ IsWrittenBy test.now pkg name) }
{
    if test == "#" {
        return Some(("", ""));
    }
    if is_own_name(test) {
        return Some(("", test));
    }
    first_parts(test)
}
