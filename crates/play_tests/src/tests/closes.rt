//! Each file that was opened or created is closed, whichever call fails.
use crate::tests::run::{File, Objects, PLAIN, Played, status_on, texts_of};
use std::alloc::Global;
use std::sync::Wait;
use std::thread::Threads;
use track_outside::{Files, MemFiles, MemSink, OutError};
use tracker_top::{Status, asks_audit, audit};

// Files that count what is opened or created, and what is closed.
#[derive(Drop)]
struct Counted<F: Files + Drop> {
    files: F,
    opened: u64,
    closed: u64,
}

impl<F: Files + Drop> Files for Counted<F> {
    type Input = F::Input;

    type Output = F::Output;

    ghost contents = { λ s. F.Files.contents s.files };

    ghost asked = { λ s. F.Files.asked s.files };

    ghost read_faults = { λ s. F.Files.read_faults s.files };

    ghost write_faults = { λ s. F.Files.write_faults s.files };

    fn open_input(&mut self, alloc: Global, name: &str) -> Result<F::Input, OutError> {
        let input = self.files.open_input(alloc, name);
        self.opened = self.opened.saturating_add(u64::from(input.is_ok()));
        input
    }

    fn create_output(&mut self, alloc: Global, name: &str) -> Result<F::Output, OutError> {
        let output = self.files.create_output(alloc, name);
        self.opened = self.opened.saturating_add(u64::from(output.is_ok()));
        output
    }

    fn close_input(&mut self, input: F::Input) {
        self.files.close_input(input);
        self.closed = self.closed.saturating_add(1);
    }

    fn close_output(&mut self, output: F::Output) {
        self.files.close_output(output);
        self.closed = self.closed.saturating_add(1);
    }
}

// The status of the words on these objects, where a run has written nothing on its output.
fn status_of<R: Threads + Wait + Sync>(
    rt: &R,
    alloc: Global,
    words: &[&str],
    files: &mut Counted<MemFiles>,
    out: &mut MemSink,
    err: &mut MemSink,
) -> Option<Status> {
    let texts = texts_of(alloc, words).ok()?;
    if asks_audit(&texts) {
        return Some(audit(alloc, &texts, out, err, files));
    }
    let status = status_on(rt, alloc, words, out, err, files);
    if out.bytes().is_empty() { status } else { None }
}

const PLAY: &[&str] = &["play", "s1", "s2"];

const AUDIT: &[&str] = &["audit", "j", "s1"];

// Empty scripts, a transcript, and journals.
const FILES: &[File] = &[("s1", ""), ("s2", ""), ("s1.out", ""), ("j", "")];

// The words, the call that fails, the status, and how many files were opened or created by then.
type Row = (&'static [&'static str], u64, Status, u64);

const ROWS: [Row; 9] = [
    (PLAY, 1, Status::ReadFault, 0),
    (PLAY, 2, Status::WriteFault, 1),
    (PLAY, 3, Status::ReadFault, 2),
    (PLAY, 4, Status::WriteFault, 3),
    (PLAY, 5, Status::Done, 4),
    (AUDIT, 1, Status::ReadFault, 0),
    (AUDIT, 2, Status::ReadFault, 1),
    (AUDIT, 3, Status::ReadFault, 2),
    (AUDIT, 4, Status::Done, 3),
];

// Whether a row ends so, and all that was opened or created is closed then.
fn are_closed<R: Threads + Wait + Sync>(rt: &R, alloc: Global, row: &Row) -> bool {
    let (words, fails, status, opened) = row;
    let given = Played {
        files: FILES,
        fails: &[*fails],
        ..PLAIN
    };
    let Some(objects) = Objects::of(alloc, &given) else {
        return false;
    };
    let Objects {
        files,
        mut out,
        mut err,
    } = objects;
    let mut files = Counted {
        files,
        opened: 0,
        closed: 0,
    };
    status_of(rt, alloc, words, &mut files, &mut out, &mut err) == Some(*status)
        && files.opened == *opened
        && files.closed == *opened
}

#[test]
fn what_is_opened_is_closed(rt: HostRuntime) {
    for row in &ROWS {
        assert!(rt; are_closed(&rt, rt.alloc(), row), "{:?}, {}", row.0, row.1);
    }
}
