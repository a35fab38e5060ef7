//! Numerals of benchmark output, with their scaled values, and scaled values as text.
use fixed_value::*;
use std::alloc::Global;

// Texts, decimals and scaled values.
const SCALED: [(&str, u8, i64); 27] = [
    ("0.25", 4, 2500),
    ("2.5", 0, 3),
    ("-2.5", 0, -3),
    ("1e-05", 9, 10000),
    ("2.4999999999", 0, 2),
    ("-2.4999999999", 0, -2),
    ("3.5", 0, 4),
    ("0.5", 0, 1),
    ("-0.5", 0, -1),
    ("0.49999", 0, 0),
    ("-0.4", 0, 0),
    ("-0", 0, 0),
    ("+1.5E+1", 0, 15),
    ("00012.50", 1, 125),
    ("12.50e-3", 4, 125),
    ("12.54e-3", 4, 125),
    ("12.55e-3", 4, 126),
    ("10000000000000000", 0, 10_000_000_000_000_000),
    ("-1e16", 0, -10_000_000_000_000_000),
    ("1000000000000.00004", 4, 10_000_000_000_000_000),
    ("-1000000000000.00004999", 4, -10_000_000_000_000_000),
    ("9999999999999999.5", 0, 10_000_000_000_000_000),
    ("9999999999999999.4", 0, 9_999_999_999_999_999),
    ("0.0000000000000000000000000000000000001", 9, 0),
    ("999999999999999999999999999999999999e-38", 1, 0),
    ("0e99999999999999999999999999999999999999", 9, 0),
    ("1e-9999999999999999999999999999999999999", 9, 0),
];

// Numerals whose scaled value is above the limit, and the decimals.
const TOO_LARGE: [(&str, u8); 8] = [
    ("10000000000000001", 0),
    ("-10000000000000001", 0),
    ("1000000000000.00005", 4),
    ("1000000000000.0001", 4),
    ("10000000000000000.5", 0),
    ("1e17", 0),
    ("99999999999999999999999999999999999999", 0),
    ("1e99999999999999999999999999999999999999", 0),
];

// Texts that are no numerals; the last three have too many digits or bytes.
const NO_NUMERALS: [&str; 26] = [
    "",
    "+",
    "-",
    ".",
    ".5",
    "5.",
    "1.e5",
    "e5",
    "1e",
    "1e+",
    "1e+-5",
    "--1",
    "+-1",
    " 1",
    "1 ",
    "0x10",
    "NaN",
    "inf",
    "1_000",
    "1,5",
    "1.5.2",
    "1e5.0",
    "1e5e5",
    "999999999999999999999999999999999999999",
    "0.00000000000000000000000000000000000001",
    "1e999999999999999999999999999999999999999",
];

// Fields that no text has: digits, exponent, decimals, and the scaled value.
const FIELDS: [(u128, i128, u8, Result<i64, OutOfRange>); 10] = [
    (u128::MAX, i128::MIN, 9, Ok(0)),
    (u128::MAX, i128::MAX, 9, Err(OutOfRange)),
    (1, i128::MAX, 0, Err(OutOfRange)),
    (0, i128::MAX, 9, Ok(0)),
    (u128::MAX, -22, 0, Err(OutOfRange)),
    (u128::MAX, -23, 0, Ok(3_402_823_669_209_385)),
    (u128::MAX, -38, 0, Ok(3)),
    (u128::MAX, -39, 0, Ok(0)),
    (u128::MAX, -48, 9, Ok(0)),
    (u128::MAX, -47, 9, Ok(3)),
];

// Scaled values, their decimals, and their texts.
const WRITTEN: [(i64, u8, &str); 11] = [
    (-5000, 4, "-0.5000"),
    (0, 0, "0"),
    (0, 4, "0.0000"),
    (12345, 0, "12345"),
    (12345, 4, "1.2345"),
    (-1, 9, "-0.000000001"),
    (10_000_000_000_000_000, 4, "1000000000000.0000"),
    (i64::MIN, 0, "-9223372036854775808"),
    (i64::MAX, 18, "9.223372036854775807"),
    (i64::MIN, 19, "-0.9223372036854775808"),
    (7, 21, "0.000000000000000000007"),
];

// Whether the text is a numeral with this scaled value.
fn is_scaled(text: &str, d: u8, value: Result<i64, OutOfRange>) -> bool {
    match Numeral::read(text.as_bytes()) {
        Some(numeral) => d <= 9 && scale(&numeral, d) == value,
        None => false,
    }
}

#[test]
fn numerals_are_read_and_scaled(rt: HostRuntime) {
    for (text, d, value) in &SCALED {
        assert!(rt; is_scaled(text, *d, Ok(*value)), "{text}");
    }
    for (text, d) in &TOO_LARGE {
        assert!(rt; is_scaled(text, *d, Err(OutOfRange)), "{text}");
    }
    for text in &NO_NUMERALS {
        assert!(rt; Numeral::read(text.as_bytes()).is_none(), "{text}");
    }
    let parts = Numeral {
        negative: true,
        digits: 1250,
        exponent: -5,
    };
    assert!(rt; Numeral::read(b"-12.50E-3") == Some(parts));
}

// Whether the fields have this scaled value.
fn are_scaled(digits: u128, exponent: i128, d: u8, value: Result<i64, OutOfRange>) -> bool {
    let numeral = Numeral {
        negative: false,
        digits,
        exponent,
    };
    d <= 9 && scale(&numeral, d) == value
}

// Whether the value has this text.
fn has_text(alloc: Global, value: i64, d: u8, text: &str) -> bool {
    let mut out = Vec::new(alloc);
    put_fixed(alloc, &mut out, value, d).is_ok() && out.as_slice() == text.as_bytes()
}

#[test]
fn any_fields_are_scaled_and_written(rt: HostRuntime) {
    for (digits, exponent, d, value) in &FIELDS {
        assert!(rt; are_scaled(*digits, *exponent, *d, *value), "{exponent}");
    }
    for (value, d, text) in &WRITTEN {
        assert!(rt; has_text(rt.alloc(), *value, *d, text), "{text}");
    }
}
