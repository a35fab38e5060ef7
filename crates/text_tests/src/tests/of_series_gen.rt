//! The script of 7, beside counts that another program made.
use series_gen::put_script;
use std::alloc::Global;

// The lines of the script of 7, by their beginnings, and some of its values, counted by another program.
const COUNTS: [(&[u8], usize); 12] = [
    (b"machine g", 1),
    (b"commit g ", 500),
    (b"tune g ns/op 300000000000", 1),
    (b"submit go g c", 2000),
    (b"BenchmarkG 1 ", 2000),
    (b"segment g G ns/op", 21),
    (b"retract g r", 10),
    (b"changes g G ns/op", 1),
    (b"submit go g c271 r1 24", 1),
    (b"BenchmarkG 1 1017 ns/op", 27),
    (b"BenchmarkG 1 1107 ns/op", 31),
    (b"BenchmarkG 1 1320 ns/op", 26),
];

// Some of its lines, by their places, from 0.
const PLACES: [(usize, &[u8]); 5] = [
    (0, b"machine g"),
    (1, b"commit g 0 c0"),
    (501, b"tune g ns/op 300000000000"),
    (502, b"submit go g c0 r0 24"),
    (503, b"BenchmarkG 1 1017 ns/op"),
];

// Whether the text has the line at the place.
fn has_line(text: &[u8], place: usize, line: &[u8]) -> bool {
    let mut at = 0usize;
    for found in text.split(|byte| *byte == b'\n') {
        if at == place {
            return found == line;
        }
        at = at.saturating_add(1);
    }
    false
}

// How many lines stand at their places.
fn placed(text: &[u8]) -> usize {
    let mut count = 0usize;
    for (place, line) in &PLACES {
        if has_line(text, *place, line) {
            count = count.saturating_add(1);
        }
    }
    count
}

// How many lines of the text begin so.
fn count_of(text: &[u8], start: &[u8]) -> usize {
    let mut found = 0usize;
    for line in text.split(|byte| *byte == b'\n') {
        if line.starts_with(start) {
            found = found.saturating_add(1);
        }
    }
    found
}

// The first row that the text doesn't have.
fn missing(text: &[u8]) -> Option<usize> {
    for (row, (start, count)) in COUNTS.iter().enumerate() {
        if count_of(text, start) != *count {
            return Some(row);
        }
    }
    None
}

// The script's length, how many lines stand at their places, and the first row that it doesn't have; none where there is no memory.
fn script_of_seven(alloc: Global) -> Option<(usize, usize, Option<usize>)> {
    let mut out = Vec::new(alloc);
    if put_script(alloc, &mut out, 7).is_err() {
        return None;
    }
    Some((out.len(), placed(&out), missing(&out)))
}

#[test]
fn the_script_of_seven(rt: HostRuntime) {
    assert_eq!(rt; script_of_seven(rt.alloc()), Some((107_815, 5, None)));
}
