//! Bytes as a text of JSON.
ghost use Rattle.std.specs.{Prelude.{◌≡◌, ◌<◌, ◌++◌, OnOk, false}, Fmt.digit_glyph};
ghost use Rattle.lnt_report.specs.Quoted.{escape, quoted};

use crate::NoMemory;

// The hex digit of a number below 16.
fn hex_digit(number: u8) -> u8
    requires { number < 16 }
    ensures { result ≡ digit_glyph false number }
{
    if number < 10 {
        b'0' + number
    } else {
        b'a' - 10 + number
    }
}

// Appends what a byte is within a text of JSON.
fn put_byte(out: &mut Vec<u8>, byte: u8) -> Result<(), NoMemory>
    ensures { OnOk result (out.new.items ≡ out.old.items ++ escape byte) }
{
    if byte == b'"' || byte == b'\\' {
        out.push(b'\\')?;
        out.push(byte)?;
    } else if byte < 32 {
        out.extend_from_slice(b"\\u00")?;
        out.push(hex_digit(byte / 16))?;
        out.push(hex_digit(byte % 16))?;
    } else {
        out.push(byte)?;
    }
    Ok(())
}

/// Appends a text as one of JSON, between its quotes.
///
/// Linear in the length; where there is no memory it may have appended some of it.
pub(crate) fn put_quoted(out: &mut Vec<u8>, text: &str) -> Result<(), NoMemory>
    ensures { OnOk result (out.new.items ≡ out.old.items ++ quoted text.now) }
{
    out.push(b'"')?;
    for byte in text.as_bytes() {
        put_byte(out, *byte)?;
    }
    out.push(b'"')?;
    Ok(())
}
