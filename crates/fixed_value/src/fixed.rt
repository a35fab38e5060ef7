//! A scaled value as text, and what reading that text gives.
ghost use Rattle.std.specs.Prelude.{◌≡◌, ◌≤◌, unsigned_abs, ◌+◌, ◌/◌, ◌%◌, ◌^◌, ◌++◌, length, take, OnOk, OnErr};
ghost use Rattle.fixed_value.specs.Fixed.{fixed_text, magnitude_text, low_digits, IsReadBack, FixedIsReadBack};

use crate::NoMemory;
use itoa::Buffer;
use std::alloc::Global;

/// Appends the text of `value` / 10^d: a `-` for a value below 0, the whole part, and for d above
/// 0 a `.` and exactly d digits. Within 10^16 and with at most nine decimals, it is a numeral whose
/// scaled value is `value`.
///
/// Linear in d; changes nothing where there is no memory.
pub fn put_fixed(_alloc: Global, out: &mut Vec<u8>, value: i64, d: u8) -> Result<(), NoMemory>
    ensures ok { OnOk result (out.new.items ≡ out.old.items ++ fixed_text value d) }
    ensures err { OnErr result (out.new.items ≡ out.old.items) }
    ensures back { unsigned_abs value ≤ 10 ^ 16 → d ≤ 9 → IsReadBack value d }
{
    let start = out.len();
    let put = put_parts(out, value, d);
    if put.is_err() {
        out.truncate(start);
    }
    put
}

// Appends the text; where there is no memory, it may have appended some of it.
fn put_parts(out: &mut Vec<u8>, value: i64, d: u8) -> Result<(), NoMemory>
    ensures ok { OnOk result (out.new.items ≡ out.old.items ++ fixed_text value d) }
    ensures err { OnErr result (take (length out.old.items) out.new.items ≡ out.old.items) }
{
    if value < 0 {
        out.push(b'-')?;
    }
    put_magnitude(out, value.unsigned_abs(), d)
}

// Appends the text of n / 10^d, or some of it.
fn put_magnitude(out: &mut Vec<u8>, n: u64, d: u8) -> Result<(), NoMemory>
    ensures ok { OnOk result (out.new.items ≡ out.old.items ++ magnitude_text n d) }
    ensures err { OnErr result (take (length out.old.items) out.new.items ≡ out.old.items) }
{
    out.extend_from_slice(Buffer::new().format(without_places(n, d)).as_bytes())?;
    if d > 0 {
        out.push(b'.')?;
        put_low_digits(out, n, d)?;
    }
    Ok(())
}

// Appends the digits of n at the places below d, or some of them.
fn put_low_digits(out: &mut Vec<u8>, n: u64, d: u8) -> Result<(), NoMemory>
    ensures ok { OnOk result (out.new.items ≡ out.old.items ++ low_digits d n) }
    ensures err { OnErr result (take (length out.old.items) out.new.items ≡ out.old.items) }
{
    for place in (0..d).rev() {
        out.push(b'0' + (without_places(n, place) % 10) as u8)?;
    }
    Ok(())
}

// The number without its last places.
fn without_places(n: u64, places: u8) -> u64
    ensures { result ≡ n / 10 ^ places }
{
    if places > 19 {
        0
    } else {
        n / 10u64.pow(u32::from(places))
    }
}

/// The text of a value of magnitude at most 10^16 with at most nine decimals is a numeral, and its
/// scaled value is the value. Does nothing: its contract is what it is for.
pub fn fixed_law()
    ensures { FixedIsReadBack }
{}
