//! Changes in the files of runs: each has the verdict that the plain audit gives, which begins anew for each request.
use crate::of_play_audit::{are_short, are_some};
use crate::runs::{RUNS, Row, heard_of};
use play_audit::{Bytes, Heard, Verdict, audit, plain_audit};
use std::alloc::Global;
use std::test::Fail;

// Numbers that are drawn one after another, from a seed.
#[derive(Drop)]
struct Drawn(u64);

impl Drawn {
    // One below a bound; 0 where the bound is 0.
    fn below(&mut self, bound: usize) -> usize {
        self.0 = self
            .0
            .wrapping_mul(6_364_136_223_846_793_005)
            .wrapping_add(1_442_695_040_888_963_407);
        if bound == 0 {
            return 0;
        }
        ((self.0 >> 33) as usize) % bound
    }
}

// The lines of a text, each with its line feed.
fn lines_of(alloc: Global, text: &[u8]) -> Option<Vec<Vec<u8>>> {
    let mut lines = Vec::new(alloc);
    let mut line = Vec::new(alloc);
    for byte in text {
        line.push(*byte).ok()?;
        if *byte == b'\n' {
            lines.push(line).ok()?;
            line = Vec::new(alloc);
        }
    }
    if !line.is_empty() {
        lines.push(line).ok()?;
    }
    Some(lines)
}

fn joined(alloc: Global, lines: &[Vec<u8>]) -> Option<Vec<u8>> {
    let mut text = Vec::new(alloc);
    for line in lines {
        text.extend_from_slice(line).ok()?;
    }
    Some(text)
}

// The text with another byte.
fn with_byte(alloc: Global, drawn: &mut Drawn, text: &[u8]) -> Option<Vec<u8>> {
    let mut made = Vec::from_slice(alloc, text).ok()?;
    let place = drawn.below(made.len());
    let byte = b' '.saturating_add(u8::try_from(drawn.below(95)).ok()?);
    if let Some(old) = made.get_mut(place) {
        *old = byte;
    }
    Some(made)
}

// The text with a number that is off by one, at the first digit from a place on.
fn with_number(alloc: Global, drawn: &mut Drawn, text: &[u8]) -> Option<Vec<u8>> {
    let from = drawn.below(text.len());
    let up = drawn.below(2) == 0;
    let mut made = Vec::new(alloc);
    let mut done = false;
    for (i, byte) in text.iter().enumerate() {
        if i >= from && !done && byte.is_ascii_digit() {
            made.push(beside(*byte, up)).ok()?;
            done = true;
        } else {
            made.push(*byte).ok()?;
        }
    }
    Some(made)
}

// The digit above or below.
fn beside(digit: u8, up: bool) -> u8 {
    if up && digit < b'9' {
        return digit.saturating_add(1);
    }
    digit.saturating_sub(1).max(b'0')
}

const AUTHORS: [&[u8]; 8] = [
    b" k ", b" s1 ", b" s2 ", b" s3 ", b" r1 ", b" b1 ", b" b2 ", b" s9 ",
];

// The line with another author, where it has one.
fn renamed(alloc: Global, drawn: &mut Drawn, line: &[u8]) -> Option<Vec<u8>> {
    let author = AUTHORS.get(drawn.below(8))?;
    let mut made = Vec::new(alloc);
    let mut spaces = 0;
    for byte in line {
        if *byte == b' ' && spaces < 2 {
            spaces += 1;
            if spaces == 1 {
                made.extend_from_slice(author).ok()?;
            }
        } else if spaces != 1 {
            made.push(*byte).ok()?;
        }
    }
    Some(made)
}

// Changes the lines of a text: one left out, two swapped, one moved, one in the place of another, one by another author, or
// the last one cut.
fn change_lines(
    alloc: Global,
    drawn: &mut Drawn,
    kind: usize,
    lines: &mut Vec<Vec<u8>>,
) -> Option<()> {
    let one = drawn.below(lines.len());
    let other = drawn.below(lines.len());
    match kind {
        0 => leave_out(lines, one),
        1 => swap(alloc, lines, one, other),
        2 => move_line(alloc, lines, one, other),
        3 => put_line(alloc, lines, one, other),
        4 => rename(alloc, drawn, lines, one),
        _ => cut_last(drawn, lines),
    }
}

fn leave_out(lines: &mut Vec<Vec<u8>>, one: usize) -> Option<()> {
    if one < lines.len() {
        let _left_out = lines.remove(one);
    }
    Some(())
}

// A line in the place of another.
fn put_line(alloc: Global, lines: &mut Vec<Vec<u8>>, one: usize, other: usize) -> Option<()> {
    let line = Vec::from_slice(alloc, lines.get(other)?).ok()?;
    *lines.get_mut(one)? = line;
    Some(())
}

fn swap(alloc: Global, lines: &mut Vec<Vec<u8>>, one: usize, other: usize) -> Option<()> {
    let line = Vec::from_slice(alloc, lines.get(one)?).ok()?;
    put_line(alloc, lines, one, other)?;
    *lines.get_mut(other)? = line;
    Some(())
}

fn move_line(alloc: Global, lines: &mut Vec<Vec<u8>>, one: usize, other: usize) -> Option<()> {
    let line = Vec::from_slice(alloc, lines.get(one)?).ok()?;
    leave_out(lines, one)?;
    if other <= lines.len() {
        lines.insert(other, line).ok()?;
    }
    Some(())
}

fn rename(alloc: Global, drawn: &mut Drawn, lines: &mut Vec<Vec<u8>>, one: usize) -> Option<()> {
    let line = renamed(alloc, drawn, lines.get(one)?)?;
    *lines.get_mut(one)? = line;
    Some(())
}

fn cut_last(drawn: &mut Drawn, lines: &mut Vec<Vec<u8>>) -> Option<()> {
    if let Some(last) = lines.last_mut() {
        let len = drawn.below(last.len());
        last.truncate(len);
    }
    Some(())
}

// The text with one change.
fn changed(alloc: Global, drawn: &mut Drawn, text: &[u8]) -> Option<Vec<u8>> {
    match drawn.below(8) {
        0 => with_byte(alloc, drawn, text),
        1 => with_number(alloc, drawn, text),
        kind => with_lines(alloc, drawn, kind - 2, text),
    }
}

fn with_lines(alloc: Global, drawn: &mut Drawn, kind: usize, text: &[u8]) -> Option<Vec<u8>> {
    let mut lines = lines_of(alloc, text)?;
    change_lines(alloc, drawn, kind, &mut lines)?;
    joined(alloc, &lines)
}

// Puts a line of another transcript, or of the same, in the place of one.
fn exchange(alloc: Global, drawn: &mut Drawn, heard: &mut Vec<Heard>) -> Option<()> {
    let from = drawn.below(heard.len());
    let to = drawn.below(heard.len());
    let lines = lines_of(alloc, heard.get(from)?.transcript.as_slice())?;
    let mut others = lines_of(alloc, heard.get(to)?.transcript.as_slice())?;
    let line = lines.get(drawn.below(lines.len()))?;
    let place = drawn.below(others.len());
    *others.get_mut(place)? = Vec::from_slice(alloc, line).ok()?;
    heard.get_mut(to)?.transcript = Bytes::of(joined(alloc, &others)?);
    Some(())
}

// The files of a run.
#[derive(Drop)]
struct Files {
    journal: Vec<u8>,
    heard: Vec<Heard>,
}

fn files_of(alloc: Global, row: &Row) -> Option<Files> {
    Some(Files {
        journal: Vec::from_slice(alloc, row.journal).ok()?,
        heard: heard_of(alloc, row)?,
    })
}

// Changes one of the files: the journals most often, as often a transcript, else a script.
fn change(alloc: Global, drawn: &mut Drawn, files: &mut Files) -> Option<()> {
    let kind = drawn.below(16);
    if kind == 0 {
        return exchange(alloc, drawn, &mut files.heard);
    }
    if kind < 8 {
        files.journal = changed(alloc, drawn, &files.journal)?;
        return Some(());
    }
    let place = drawn.below(files.heard.len());
    let one = files.heard.get_mut(place)?;
    if kind == 8 {
        one.script = Bytes::of(changed(alloc, drawn, one.script.as_slice())?);
    } else {
        one.transcript = Bytes::of(changed(alloc, drawn, one.transcript.as_slice())?);
    }
    Some(())
}

// The files of a run with a change or two.
fn changed_files(alloc: Global, drawn: &mut Drawn, row: &Row) -> Option<Files> {
    let mut files = files_of(alloc, row)?;
    change(alloc, drawn, &mut files)?;
    if drawn.below(4) == 0 {
        change(alloc, drawn, &mut files)?;
    }
    Some(files)
}

// Whether files are shown to fit; none where the audit and the plain one don't give the same verdict.
fn agreed(alloc: Global, journal: &[u8], heard: &[Heard]) -> Option<bool> {
    if !are_some(heard) || !are_short(heard) {
        return None;
    }
    let verdict = audit(alloc, journal, heard);
    if verdict == plain_audit(alloc, journal, heard) {
        Some(matches!(verdict, Ok(Verdict::Shown { .. })))
    } else {
        None
    }
}

fn is_shown(alloc: Global, drawn: &mut Drawn, row: &Row) -> Option<bool> {
    let files = changed_files(alloc, drawn, row)?;
    agreed(alloc, &files.journal, &files.heard)
}

// How many of 250 changes of the first three runs, from a seed, still fit; none where the audits differ on one.
fn shown_of(alloc: Global, seed: u64) -> Option<usize> {
    let mut drawn = Drawn(seed);
    let mut shown: usize = 0;
    for number in 0..250 {
        if is_shown(alloc, &mut drawn, RUNS.get(number % 3)?)? {
            shown = shown.saturating_add(1);
        }
    }
    Some(shown)
}

// Whether the audits agree on all changes from a seed, of which a few still fit.
fn agree(alloc: Global, seed: u64) -> bool {
    match shown_of(alloc, seed) {
        Some(shown) => 0 < shown && shown < 60,
        None => false,
    }
}

#[test]
fn the_changes_of_eight_seeds_are_found_as_by_the_plain_audit(rt: HostRuntime) -> Result<(), Fail> {
    for seed in 1..=8 {
        assert!(rt; agree(rt.alloc(), seed), "seed {seed}");
    }
    Ok(())
}
