//! An audit whose first file can't be opened.
use crate::tests::run::{Objects, PLAIN, Played, texts_of};
use std::alloc::Global;
use tracker_top::{Status, asks_audit, audit};

// The journals can't be opened.
const UNOPENED: Played<'static> = Played {
    words: &["audit", "j", "s1"],
    files: &[
        ("j", "machine m1 steps 1\n1 s1 commit 10 a\n"),
        ("s1", "commit m1 10 a\n"),
        ("s1.out", "@1 commit 10 a\n"),
    ],
    fails: &[1],
    status: Status::ReadFault,
    err: "read fault\n",
    ..PLAIN
};

#[test]
fn journals_can_not_be_opened(rt: HostRuntime) {
    assert!(rt; ends(rt.alloc(), &UNOPENED));
}

// Whether the audit ends so.
fn ends(alloc: Global, run: &Played<'_>) -> bool {
    match Objects::of(alloc, run) {
        Some(mut objects) => {
            status_of(alloc, run.words, &mut objects) == Some(run.status) && objects.are_left(run)
        }
        None => false,
    }
}

fn status_of(alloc: Global, words: &[&str], objects: &mut Objects) -> Option<Status> {
    let Ok(texts) = texts_of(alloc, words) else {
        return None;
    };
    if !asks_audit(&texts) {
        return None;
    }
    let Objects { files, out, err } = objects;
    Some(audit(alloc, &texts, out, err, files))
}
