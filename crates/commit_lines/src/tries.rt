//! What may come behind a line that has begun.
ghost use Rattle.std.specs.{Prelude.{◌≡◌, ◌++◌, ◌<◌, ◌↔◌, OnOk, IfOk, IsTrue}, Char.digit_char};
ghost use Rattle.commit_lines.specs.{Ends.end_at, HasRead.{SaysName, IsTried}};

use crate::line::{LINE_LIMIT, LineKind, line_kind};
use std::alloc::{AllocError, Global};

/// Whether the line says a name with one of the ends that are tried behind it.
///
/// They are all that is needed: up to two digits of an escape, and the least bytes that end a character. Each of the 9,216
/// is tried in a copy of the line until one does.
pub fn is_tried(alloc: Global, line: &[u8]) -> Result<bool, AllocError>
    ensures { IfOk result (λ says. IsTrue says ↔ IsTried line.now) }
{
    for number in 0..9_216 {
        if says_name(alloc, line, number)? {
            return Ok(true);
        }
    }
    Ok(false)
}

// Whether the line says a name with the end of this number.
fn says_name(alloc: Global, line: &[u8], number: u64) -> Result<bool, AllocError>
    requires { number < 9_216 }
    ensures { IfOk result (λ says. IsTrue says ↔ SaysName (line.now ++ end_at number)) }
{
    let mut whole = Vec::new(alloc);
    whole.extend_from_slice(line)?;
    put_end(&mut whole, number)?;
    if whole.len() > LINE_LIMIT {
        return Ok(false);
    }
    match line_kind(alloc, &whole)? {
        LineKind::Named(_) => Ok(true),
        LineKind::Skipped => Ok(false),
        LineKind::Bad => Ok(false),
    }
}

// Puts the end of this number behind some bytes.
fn put_end(out: &mut Vec<u8>, number: u64) -> Result<(), AllocError>
    requires { number < 9_216 }
    ensures { OnOk result (out.new.items ≡ out.old.items ++ end_at number) }
{
    let value = number / 12 % 256;
    let digits = [digit(value / 16 % 16), digit(value % 16)];
    out.extend_from_slice(&digits[2 - (number / 3_072) as usize..])?;
    let last = [128 + 16 * (number % 12 / 4) as u8, 128, 128];
    out.extend_from_slice(&last[..(number % 12 % 4) as usize])?;
    Ok(())
}

// The byte that writes a hexadecimal digit.
fn digit(value: u64) -> u8
    requires { value < 16 }
    ensures { result ≡ digit_char value }
{
    if value < 10 {
        b'0' + value as u8
    } else {
        b'a' - 10 + value as u8
    }
}
