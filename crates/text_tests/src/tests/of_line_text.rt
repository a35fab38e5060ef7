//! Each call with ample memory, and values from outside.
use line_text::{Duplicate, *};
use std::alloc::Global;

// Each ASCII byte that a canonical spelling leaves as it is.
const PLAIN: &[u8] =
    b"!\"#$&'()*+-./0123456789:;<=>?@ABCDEFGHIJKLMNOPQRSTUVWXYZ[\\]^_`abcdefghijklmnopqrstuvwxyz{|}~";

// Words and the names that they spell.
const SPELLINGS: [(&str, &str); 12] = [
    ("a%20b%2Cc", "a b,c"),
    ("a%20b%2cc", "a b,c"),
    ("%61", "a"),
    ("a", "a"),
    ("a,b", "a,b"),
    ("m1%0D", "m1\r"),
    ("m1\r", "m1\r"),
    ("%00", "\0"),
    ("%C3%a9", "é"),
    ("é", "é"),
    ("%252", "%2"),
    ("%25%32", "%2"),
];

// Words that spell no name.
const NO_SPELLINGS: [&[u8]; 14] = [
    b"",
    b"%",
    b"a%",
    b"a%2",
    b"%%",
    b"%2g",
    b"%g2",
    b"%%41",
    b"% 20",
    b"%ff",
    b"%C3",
    b"%C3%28",
    b"%ED%A0%80",
    b"\xff",
];

// Texts, how often each is repeated in a word, and whether the word spells a name: of 1 to 256 bytes.
const LENGTHS: [(&str, usize, bool); 10] = [
    ("a", 0, false),
    ("a", 1, true),
    ("a", 256, true),
    ("a", 257, false),
    ("%61", 256, true),
    ("%61", 257, false),
    ("é", 128, true),
    ("é", 129, false),
    ("%c3%a9", 128, true),
    ("%c3%a9", 129, false),
];

// Names and their one spelling.
const WRITTEN: [(&str, &str); 6] = [
    ("a b,c", "a%20b%2Cc"),
    ("100%", "100%25"),
    ("%41", "%2541"),
    ("é€😀", "%C3%A9%E2%82%AC%F0%9F%98%80"),
    ("\t\n\r\u{7f}\u{80}\u{7ff}", "%09%0A%0D%7F%C2%80%DF%BF"),
    ("BenchmarkX/a=1-8", "BenchmarkX/a=1-8"),
];

// Whether the word spells the name.
fn spells(alloc: Global, word: &[u8], name: &str) -> bool {
    match read_name(alloc, word) {
        Ok(read) => read.as_str() == name,
        Err(_) => false,
    }
}

// Whether the word spells no name.
fn spells_none(alloc: Global, word: &[u8]) -> bool {
    matches!(read_name(alloc, word), Err(NameError::BadName))
}

// Whether the text, so many times, is a word that spells a name, or one that spells none.
fn has_length(alloc: Global, text: &str, count: usize, taken: bool) -> bool {
    let mut word = Vec::new(alloc);
    for _ in 0..count {
        if word.extend_from_slice(text.as_bytes()).is_err() {
            return false;
        }
    }
    read_name(alloc, &word).is_ok() == taken
}

#[test]
fn words_spell_names(rt: HostRuntime) {
    for (word, name) in &SPELLINGS {
        assert!(rt; spells(rt.alloc(), word.as_bytes(), name), "{word}");
    }
    for word in &NO_SPELLINGS {
        assert!(rt; spells_none(rt.alloc(), word), "{word:?}");
    }
    for (text, count, taken) in &LENGTHS {
        assert!(rt;
            has_length(rt.alloc(), text, *count, *taken),
            "{count} times {text}"
        );
    }
}

// Whether the name of a text has this spelling, and so has a copy of it.
fn is_written(alloc: Global, text: &[u8], word: &[u8]) -> bool {
    match copied(alloc, text) {
        Some(name) => {
            let mut out = Vec::new(alloc);
            put_name(alloc, &mut out, &name).is_ok() && out.as_slice() == word
        }
        None => false,
    }
}

// A copy of the name of a text; none where there is no memory.
fn copied(alloc: Global, text: &[u8]) -> Option<Name> {
    let name = Name::of_text(alloc, text).ok()?;
    name.copy(alloc).ok()
}

// Whether the byte is written as itself where it is plain, and else as its escape.
fn is_escaped(alloc: Global, byte: u8) -> bool {
    let digits = b"0123456789ABCDEF";
    let escape = [
        b'%',
        digits[(byte / 16) as usize],
        digits[(byte % 16) as usize],
    ];
    let mut word = Vec::new(alloc);
    put_escaped(alloc, &mut word, &[byte]).is_ok()
        && if PLAIN.contains(&byte) {
            word.as_slice() == [byte].as_slice()
        } else {
            word.as_slice() == escape.as_slice()
        }
}

#[test]
fn names_are_written(rt: HostRuntime) {
    for (text, word) in &WRITTEN {
        assert!(rt;
            is_written(rt.alloc(), text.as_bytes(), word.as_bytes()),
            "{word}"
        );
    }
    for byte in 0..=255u8 {
        assert!(rt; is_escaped(rt.alloc(), byte), "{byte}");
    }
}

// Words and the numbers of 64 bits that they spell.
const NUMBERS: [(&str, Option<u64>); 16] = [
    ("0", Some(0)),
    ("7", Some(7)),
    ("10", Some(10)),
    ("18446744073709551615", Some(u64::MAX)),
    ("18446744073709551616", None),
    ("340282366920938463463374607431768211456", None),
    ("", None),
    ("00", None),
    ("01", None),
    ("-0", None),
    ("-1", None),
    ("+1", None),
    ("1.0", None),
    ("1 ", None),
    ("1a", None),
    ("١", None),
];

// Words and the numbers of 128 bits that they spell.
const WIDE_NUMBERS: [(&str, Option<u128>); 6] = [
    ("0", Some(0)),
    ("18446744073709551616", Some(1 << 64)),
    ("340282366920938463463374607431768211455", Some(u128::MAX)),
    ("340282366920938463463374607431768211456", None),
    ("01", None),
    ("-1", None),
];

// Words and the signed numbers that they spell.
const SIGNED_NUMBERS: [(&str, Option<i64>); 12] = [
    ("0", Some(0)),
    ("-1", Some(-1)),
    ("9223372036854775807", Some(i64::MAX)),
    ("9223372036854775808", None),
    ("-9223372036854775808", Some(i64::MIN)),
    ("-9223372036854775809", None),
    ("-0", None),
    ("-01", None),
    ("01", None),
    ("+1", None),
    ("--1", None),
    ("-", None),
];

// Lines, places, and where the next word stands.
const NEXT_WORDS: [(&str, usize, Option<(usize, usize)>); 7] = [
    ("  12  -3 ", 0, Some((2, 4))),
    ("  12  -3 ", 4, Some((6, 8))),
    ("  12  -3 ", 8, None),
    ("a", 0, Some((0, 1))),
    ("a", 1, None),
    ("\ta\r", 0, Some((0, 3))),
    ("", 0, None),
];

// Whether the next word stands there.
fn is_next(line: &[u8], at: usize, word: Option<(usize, usize)>) -> bool {
    at <= line.len() && next_word(line, at) == word
}

#[test]
fn words_spell_numbers(rt: HostRuntime) {
    for (word, number) in &NUMBERS {
        assert!(rt; read_u64(word.as_bytes()) == *number, "{word}");
    }
    for (word, number) in &WIDE_NUMBERS {
        assert!(rt; read_u128(word.as_bytes()) == *number, "{word}");
    }
    for (word, number) in &SIGNED_NUMBERS {
        assert!(rt; read_i64(word.as_bytes()) == *number, "{word}");
    }
    for (line, at, word) in &NEXT_WORDS {
        assert!(rt; is_next(line.as_bytes(), *at, *word), "{line}");
    }
}

// Whether the number has this text, also where it is put as one of 64 bits.
fn is_number(alloc: Global, number: i128, text: &str) -> bool {
    let mut out = Vec::new(alloc);
    put_i128(alloc, &mut out, number).is_ok()
        && out.as_slice() == text.as_bytes()
        && u64::try_from(number).map_or(true, |number| is_short(alloc, number, text))
}

fn is_short(alloc: Global, number: u64, text: &str) -> bool {
    let mut out = Vec::new(alloc);
    put_u64(alloc, &mut out, number).is_ok() && out.as_slice() == text.as_bytes()
}

// Numbers and their texts.
const NUMBER_TEXTS: [(i128, &str); 7] = [
    (0, "0"),
    (9, "9"),
    (10, "10"),
    (u64::MAX as i128, "18446744073709551615"),
    (-1, "-1"),
    (i128::MAX, "170141183460469231731687303715884105727"),
    (i128::MIN, "-170141183460469231731687303715884105728"),
];

#[test]
fn numbers_are_written(rt: HostRuntime) {
    for (number, text) in &NUMBER_TEXTS {
        assert!(rt; is_number(rt.alloc(), *number, text), "{text}");
    }
}

// A copy of a text; none where there is no memory.
fn text_copied(alloc: Global) -> Option<Text> {
    let text = Text::of(alloc, "é x").ok()?;
    text.copy(alloc).ok()
}

// A copy of the numbers 3 and 1; none where there is no memory.
fn numbers_copied(alloc: Global) -> Option<Numbers> {
    let mut numbers = Numbers::new(alloc);
    if numbers.push(3).is_err() || numbers.push(1).is_err() {
        return None;
    }
    numbers.copy(alloc).ok()
}

// Whether the copies are as they were.
fn are_copied(alloc: Global) -> bool {
    text_copied(alloc).is_some_and(|text| text.as_str() == "é x")
        && numbers_copied(alloc).is_some_and(|numbers| numbers.as_slice() == [3, 1].as_slice())
}

#[test]
fn texts_and_lists_are_copied(rt: HostRuntime) {
    assert!(rt; are_copied(rt.alloc()));
}
