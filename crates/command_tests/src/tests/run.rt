//! Runs of commands. Each function makes one object, and answers false where there is no memory.
ghost use Rattle.std.specs.Prelude.{◌≡◌, ◌<◌};

use crate::tests::closed::Closed;
use pelt_core::Steps;
use std::alloc::{AllocError, Global};
use std::marker::Brand;
use std::sync::ledger::{Blank, Ledger};
use track_outside::{MemKeeper, MemSink, MemSource, Source};
use tracker_top::{Status, alone, asks_hunt, asks_play};

/// The calls of each object that fail, counted from 1.
#[derive(Clone, Copy)]
pub struct Fails<'a> {
    pub reads: &'a [u64],
    pub writes: &'a [u64],
    pub tellings: &'a [u64],
}

pub const NO_FAILS: Fails = Fails {
    reads: &[],
    writes: &[],
    tellings: &[],
};

/// The first read, the second, and the first write.
pub const READ_FAILS: Fails = Fails {
    reads: &[1],
    ..NO_FAILS
};

pub const SECOND_READ_FAILS: Fails = Fails {
    reads: &[2],
    ..NO_FAILS
};

pub const WRITE_FAILS: Fails = Fails {
    writes: &[1],
    ..NO_FAILS
};

/// A run of a command, whose words have a space between two, and how it ends: at this status, with this output and this line.
#[derive(Clone, Copy)]
pub struct Run<'a> {
    pub words: &'a str,
    pub input: &'a [u8],
    pub fails: Fails<'a>,
    pub status: Status,
    pub out: &'a [u8],
    pub err: &'a str,
}

/// Whether the run ends so, over a new keeper.
pub fn ends(alloc: Global, run: &Run<'_>) -> bool {
    match MemKeeper::new(alloc, &[]) {
        Ok(mut keeper) => ends_over(alloc, run, &mut keeper),
        Err(_) => false,
    }
}

/// The same over a keeper.
pub fn ends_over(alloc: Global, run: &Run<'_>, keeper: &mut MemKeeper) -> bool {
    match MemSource::new(alloc, run.input, run.fails.reads) {
        Ok(mut source) => ends_on(alloc, run, &mut source, keeper),
        Err(_) => false,
    }
}

// The same on a source.
fn ends_on(alloc: Global, run: &Run<'_>, source: &mut MemSource, keeper: &mut MemKeeper) -> bool {
    match MemSink::new(alloc, 100_000, run.fails.writes) {
        Ok(mut out) => tells(alloc, run, source, &mut out, keeper) && out.bytes() == run.out,
        Err(_) => false,
    }
}

// Whether the run ends at its status, with its line.
fn tells(
    alloc: Global,
    run: &Run<'_>,
    source: &mut MemSource,
    out: &mut MemSink,
    keeper: &mut MemKeeper,
) -> bool {
    match MemSink::new(alloc, 100, run.fails.tellings) {
        Ok(mut err) => {
            status_of(alloc, run.words, source, out, &mut err, keeper) == Some(run.status)
                && err.bytes() == run.err.as_bytes()
        }
        Err(_) => false,
    }
}

// The status of the words on these objects; none where there is no memory for the words, or the first of them is `play` or
// `hunt`.
fn status_of<I: Source + Send + Drop>(
    alloc: Global,
    words: &str,
    source: &mut I,
    out: &mut MemSink,
    err: &mut MemSink,
    keeper: &mut MemKeeper,
) -> Option<Status> {
    match texts_of(alloc, words) {
        Ok(texts) => {
            status_counted::<I, Brand>(alloc, &texts, source, out, err, keeper, Blank::new(1))
        }
        Err(_) => None,
    }
}

// The same, with steps that are counted in a new ledger.
fn status_counted<I: Source + Send + Drop, L: Ledger>(
    alloc: Global,
    texts: &[String],
    source: &mut I,
    out: &mut MemSink,
    err: &mut MemSink,
    keeper: &mut MemKeeper,
    blank: Blank,
) -> Option<Status>
    requires name { blank.name ≡ L.name }
    requires parts { blank.parts ≡ L.parts }
    requires some { 0 < L.parts }
{
    if asks_play(texts) {
        return None;
    }
    if asks_hunt(texts) {
        return None;
    }
    let mut steps = Steps::<L>::start(blank);
    let mut files = Closed::<I>::new();
    let status = alone(
        alloc, texts, source, out, err, &mut files, keeper, &mut steps,
    );
    Some(status)
}

fn texts_of(alloc: Global, words: &str) -> Result<Vec<String>, AllocError> {
    let mut texts = Vec::new(alloc);
    if words.is_empty() {
        return Ok(texts);
    }
    for word in words.split(' ') {
        texts.push(String::from_str(alloc, word)?)?;
    }
    Ok(texts)
}

/// The status of the words on a source and an output.
pub fn comes_to<I: Source + Send + Drop>(
    alloc: Global,
    words: &str,
    source: &mut I,
    out: &mut MemSink,
) -> Option<Status> {
    match MemKeeper::new(alloc, &[]) {
        Ok(mut keeper) => comes_over(alloc, words, source, out, &mut keeper),
        Err(_) => None,
    }
}

/// The same over a keeper.
pub fn comes_over<I: Source + Send + Drop>(
    alloc: Global,
    words: &str,
    source: &mut I,
    out: &mut MemSink,
    keeper: &mut MemKeeper,
) -> Option<Status> {
    match MemSink::new(alloc, 100, &[]) {
        Ok(mut err) => status_of(alloc, words, source, out, &mut err, keeper),
        Err(_) => None,
    }
}
