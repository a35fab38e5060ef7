//! Runs of `play`, and what they and audits are given. Where there is no memory a function answers false, or none.
ghost use Rattle.std.specs.Prelude.{◌≡◌, ◌≤◌, [], All, length, IfOk};
ghost use Rattle.track_outside.specs.Asked.{Bench};

use std::alloc::{AllocError, Global};
use std::sync::Wait;
use std::thread::Threads;
use track_outside::{Files, Gate, MemFiles, MemKeeper, MemRunner, MemSink, OpenGate};
use tracker_top::{Status, asks_play, play};

/// A file: its name and its bytes.
pub type File<'a> = (&'a str, &'a str);

/// A run of `play`, or of `audit`: what it is given, the opens and creates that fail, counted from 1, how many bytes a
/// transcript may have, and how it ends: at this status, with this output and this line, where these names have these bytes.
#[derive(Clone, Copy)]
pub struct Played<'a> {
    pub words: &'a [&'a str],
    pub files: &'a [File<'a>],
    pub fails: &'a [u64],
    pub room: usize,
    pub status: Status,
    pub out: &'a str,
    pub err: &'a str,
    pub left: &'a [File<'a>],
}

/// One that is given nothing, and does nothing.
pub const PLAIN: Played<'static> = Played {
    words: &[],
    files: &[],
    fails: &[],
    room: 1_000_000,
    status: Status::Done,
    out: "",
    err: "",
    left: &[],
};

/// The files of a run, its output, and where its line goes.
#[derive(Drop)]
pub struct Objects {
    pub files: MemFiles,
    pub out: MemSink,
    pub err: MemSink,
}

impl Objects {
    /// Those that a run is given; none where there is no memory.
    pub fn of(alloc: Global, run: &Played<'_>) -> Option<Objects> {
        let files = files_of(alloc, run)?;
        let out = MemSink::new(alloc, 1_000_000, &[]).ok()?;
        let err = MemSink::new(alloc, 1_000, &[]).ok()?;
        Some(Objects { files, out, err })
    }

    /// Whether they are as the run leaves them.
    pub fn are_left(&self, run: &Played<'_>) -> bool {
        self.out.bytes() == run.out.as_bytes()
            && self.err.bytes() == run.err.as_bytes()
            && have(&self.files, run.left)
    }
}

fn files_of(alloc: Global, run: &Played<'_>) -> Option<MemFiles> {
    let mut files = MemFiles::new(alloc, run.room, run.fails).ok()?;
    for (name, bytes) in run.files {
        files.put(name, bytes.as_bytes()).ok()?;
    }
    Some(files)
}

fn have(files: &MemFiles, left: &[File<'_>]) -> bool {
    for (name, bytes) in left {
        if files.get(name) != Some(bytes.as_bytes()) {
            return false;
        }
    }
    true
}

/// Whether the run ends so, over a new keeper.
pub fn plays<R: Threads + Wait + Sync>(rt: &R, alloc: Global, run: &Played<'_>) -> bool {
    match MemKeeper::new(alloc, &[]) {
        Ok(mut keeper) => plays_over(rt, alloc, run, &mut keeper),
        Err(_) => false,
    }
}

/// Whether it ends so over a keeper.
pub fn plays_over<R: Threads + Wait + Sync>(
    rt: &R,
    alloc: Global,
    run: &Played<'_>,
    keeper: &mut MemKeeper,
) -> bool {
    match Objects::of(alloc, run) {
        Some(mut objects) => {
            status_of(rt, alloc, run.words, &mut objects, keeper) == Some(run.status)
                && objects.are_left(run)
        }
        None => false,
    }
}

/// The status of the words on these objects; none where there is no memory for the words, or the first of them isn't `play`.
pub fn status_of<R: Threads + Wait + Sync>(
    rt: &R,
    alloc: Global,
    words: &[&str],
    objects: &mut Objects,
    keeper: &mut MemKeeper,
) -> Option<Status> {
    match eight(alloc, &[], &[]) {
        Ok(mut runners) => status_with(rt, alloc, words, objects, keeper, &mut runners, &OpenGate),
        Err(_) => None,
    }
}

/// The same with these runners and under this gate.
pub fn status_with<R: Threads + Wait + Sync, G: Gate>(
    rt: &R,
    alloc: Global,
    words: &[&str],
    objects: &mut Objects,
    keeper: &mut MemKeeper,
    runners: &mut Vec<MemRunner>,
    gate: &G,
) -> Option<Status>
    requires eight { 8 ≤ length runners.old.items }
    requires unasked { All (λ (r : Bench). r.asks ≡ []) runners.old.items }
{
    let Ok(texts) = texts_of(alloc, words) else {
        return None;
    };
    if !asks_play(&texts) {
        return None;
    }
    let Objects { files, out, err } = objects;
    Some(play(rt, alloc, &texts, out, err, files, keeper, runners, gate))
}

/// The status of the words on any files, with new runners and a new keeper.
pub fn status_on<R: Threads + Wait + Sync, F: Files>(
    rt: &R,
    alloc: Global,
    words: &[&str],
    out: &mut F::Output,
    err: &mut F::Output,
    files: &mut F,
) -> Option<Status> {
    let texts = texts_of(alloc, words).ok()?;
    let mut runners = eight(alloc, &[], &[]).ok()?;
    let mut keeper = MemKeeper::new(alloc, &[]).ok()?;
    if !asks_play(&texts) {
        return None;
    }
    let (keeper, runners) = (&mut keeper, &mut runners);
    Some(play(
        rt, alloc, &texts, out, err, files, keeper, runners, &OpenGate,
    ))
}

/// Eight runners that give these answers, but at the asks with these numbers, which fail; none was asked.
pub fn eight(
    alloc: Global,
    answers: &[(u64, u8)],
    fails: &[u64],
) -> Result<Vec<MemRunner>, AllocError>
    ensures many { IfOk result (λ runners. length runners.items ≡ 8) }
    ensures unasked { IfOk result (λ runners. All (λ (r : Bench). r.asks ≡ []) runners.items) }
{
    let mut runners = Vec::with_capacity(alloc, 8)?;
    runners.push_reserved(MemRunner::new(alloc, answers, fails)?);
    runners.push_reserved(MemRunner::new(alloc, answers, fails)?);
    runners.push_reserved(MemRunner::new(alloc, answers, fails)?);
    runners.push_reserved(MemRunner::new(alloc, answers, fails)?);
    runners.push_reserved(MemRunner::new(alloc, answers, fails)?);
    runners.push_reserved(MemRunner::new(alloc, answers, fails)?);
    runners.push_reserved(MemRunner::new(alloc, answers, fails)?);
    runners.push_reserved(MemRunner::new(alloc, answers, fails)?);
    Ok(runners)
}

/// The words as texts.
pub fn texts_of(alloc: Global, words: &[&str]) -> Result<Vec<String>, AllocError> {
    let mut texts = Vec::new(alloc);
    for word in words {
        texts.push(String::from_str(alloc, word)?)?;
    }
    Ok(texts)
}
