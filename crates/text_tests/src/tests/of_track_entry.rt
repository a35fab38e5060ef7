//! Texts that are entries, and texts that are none.
use line_text::Duplicate;
use std::alloc::Global;
use track_entry::{Entry, EntryFault, put_entry, read_entry, read_entry_v1};

// Whether the text spells an entry, whose copy's spelling is the text.
fn is_spelling(alloc: Global, text: &[u8]) -> bool {
    let Ok(entry) = read_entry(alloc, text) else {
        return false;
    };
    let Ok(made) = entry.copy(alloc) else {
        return false;
    };
    let mut spelt = Vec::new(alloc);
    if put_entry(alloc, &mut spelt, &made).is_err() {
        return false;
    }
    spelt.as_slice() == text
}

// Spellings of entries.
const ENTRIES: [&str; 20] = [
    "commit 10 a",
    "commit 18446744073709551615 %20%25%2C",
    "accept r1 10 1 X B/op 0",
    "accept r2 0 2 BenchmarkX ns/op -10000000000000000 X B/op 10000000000000000",
    "accept r 7 0",
    "retract r1",
    "tune B/op 50 1",
    "tune %25 -170141183460469231731687303715884105728 0",
    "tune x 170141183460469231731687303715884105727 255",
    "publish X B/op 8 0 0 0",
    "publish a%20b x 12 5 340282 3 1 2 3",
    "publish BenchmarkX ns/op 18446744073709551615 18446744073709551615 -170141183460469231731687303715884105728 2 0 18446744073709551615",
    "raise X B/op 1 2",
    "raise a%20b x 0 18446744073709551615",
    "move 1 staged",
    "move 18446744073709551615 not_to_be_fixed",
    "begin 10 20",
    "answer 1 3 255",
    "answer 7 18446744073709551615 0",
    "giveup 1 3",
];

// Texts that spell none.
const NO_ENTRIES: [&str; 54] = [
    "",
    "commit",
    "commit 02 c",
    "commit  2 c",
    "commit 2 %63",
    "commit 2 c ",
    " commit 2 c",
    "commit 2 c d",
    "commit 18446744073709551616 c",
    "Commit 2 c",
    "accept r1 10 2 X B/op 0",
    "accept r1 10 0 X B/op 0",
    "accept r1 10 1 X B/op",
    "accept r1 10 1 X B/op -0",
    "accept r1 10 1 X B/op 10000000000000001",
    "accept r1 10 1 X B/op%2c 1",
    "retract",
    "retract a,b",
    "machine m",
    "tune B/op",
    "tune B/op 50",
    "tune B/op x 1",
    "tune B/op 050 1",
    "tune B/op -0 1",
    "tune B/op 50 01",
    "tune B/op 50 256",
    "tune B/op 50 1 1",
    "tune B/op 170141183460469231731687303715884105728 1",
    "tune aaaaaaaaaaaaaaaaaaaaaaaaaaaaaaaaaaaaaaaaaaaaaaaaaaaaaaaaaaaaaaaaa 1 1",
    "publish X B/op 8 0 0",
    "publish X B/op 8 0 0 1",
    "publish X B/op 8 0 0 0 1",
    "publish X B/op 8 0 -0 0",
    "publish X B/op 08 0 0 0",
    "publish X B/op 8 -1 0 0",
    "publish X B/op 8 0 0 1 01",
    "publish X B/op 18446744073709551616 0 0 0",
    "publish X B/op 8 0 0 1 18446744073709551616",
    "publish X B/op 8 0 170141183460469231731687303715884105728 0",
    "publish X aaaaaaaaaaaaaaaaaaaaaaaaaaaaaaaaaaaaaaaaaaaaaaaaaaaaaaaaaaaaaaaaa 8 0 0 0",
    "raise X B/op 1",
    "raise X B/op 01 2",
    "raise X aaaaaaaaaaaaaaaaaaaaaaaaaaaaaaaaaaaaaaaaaaaaaaaaaaaaaaaaaaaaaaaaa 1 2",
    "raise X B/op 1 2 3",
    "move 1 Staged",
    "move staged 1",
    "move 1 staged active",
    "begin 10",
    "begin 10 18446744073709551616",
    "answer 1 3 256",
    "answer 1 3",
    "answer 1 3 00",
    "giveup 1 3 0",
    "give_up 1 3",
];

// Whether the text is refused.
fn is_none(alloc: Global, text: &[u8]) -> bool {
    matches!(read_entry(alloc, text), Err(EntryFault::NotEntry))
}

// Texts of version 1, and those of version 2 that they come to; none where they spell no entry in version 1.
const FIRST: [(&str, Option<&str>); 8] = [
    ("tune B/op 50", Some("tune B/op 50 1")),
    ("tune %25 -1", Some("tune %25 -1 1")),
    ("commit 10 a", Some("commit 10 a")),
    ("answer 1 3 255", Some("answer 1 3 255")),
    ("tune B/op 50 1", None),
    ("tune B/op 50 ", None),
    ("tune", None),
    ("t", None),
];

// Whether the text is read so in version 1.
fn is_first(alloc: Global, text: &[u8], told: Option<&str>) -> bool {
    match read_entry_v1(alloc, text) {
        Ok(entry) => match told {
            Some(wanted) => is_spelt(alloc, &entry, wanted.as_bytes()),
            None => false,
        },
        Err(EntryFault::NotEntry) => told.is_none(),
        Err(EntryFault::NoMemory) => false,
    }
}

// Whether the entry is spelt so.
fn is_spelt(alloc: Global, entry: &Entry, wanted: &[u8]) -> bool {
    let mut spelt = Vec::new(alloc);
    put_entry(alloc, &mut spelt, entry).is_ok() && spelt.as_slice() == wanted
}

#[test]
fn version_1_is_read_too(rt: HostRuntime) {
    for (text, told) in &FIRST {
        assert!(rt; is_first(rt.alloc(), text.as_bytes(), *told), "{text}");
    }
}

#[test]
fn entries_are_read_from_their_one_spelling(rt: HostRuntime) {
    for text in &ENTRIES {
        assert!(rt; is_spelling(rt.alloc(), text.as_bytes()), "{text}");
    }
    for text in &NO_ENTRIES {
        assert!(rt; is_none(rt.alloc(), text.as_bytes()), "{text}");
    }
}
