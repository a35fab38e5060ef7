//! The changes of a small series, by a metric of either direction.
ghost use Rattle.std.specs.Prelude.{IsTrue, pos, ◌≤ℤ◌, ◌^◌};
ghost use Rattle.segment_model.specs.Limits.{IsLength};
ghost use Rattle.segment_cost.specs.Certificate.{StandsFor};

use crate::tests::given::points_of;
use change_list::{Beside, Change, ChangeItems, changes, commits_beside};
use cost_certificate::check;
use line_text::Name;
use part_core::part;
use segment_cost::{Cert, Done, Points, Square};
use std::alloc::Global;

// The points of the values 0 0 10 10 -5 -5.
fn six_points(alloc: Global) -> Option<Points> {
    points_of(alloc, &[(0, 0), (1, 0), (2, 10), (3, 10), (4, -5), (5, -5)])
}

// Whether the certificate passes; no where there is no memory.
fn stands(alloc: Global, cert: &Cert, points: &Points) -> bool
    ensures { IsTrue result → (pos 0 ≤ℤ cert.now.penalty) × (cert.now.penalty ≤ℤ pos (10 ^ 36))
        × IsLength cert.now.length
        × StandsFor points.now cert.now.penalty cert.now.length cert.now }
{
    match Square::of_points(alloc, points) {
        Ok(square) => check(cert, points, &square),
        Err(_) => false,
    }
}

// Their finished segmentation at a penalty of 50, under these names; none where there is no memory.
fn done_of(alloc: Global, test: Name, metric: Name) -> Option<Done> {
    let mut points = six_points(alloc)?;
    let cert = part(alloc, &points, 50, 1).ok()?;
    if !stands(alloc, &cert, &points) {
        return None;
    }
    let Ok(frozen) = points.freeze() else {
        return None;
    };
    Some(Done {
        test,
        metric,
        version: 9,
        base: 0,
        redone: 6,
        cert,
        points: frozen,
    })
}

// The same of this metric.
fn done_in(alloc: Global, metric: &[u8]) -> Option<Done> {
    let test = Name::of_text(alloc, b"T").ok()?;
    let metric = Name::of_text(alloc, metric).ok()?;
    done_of(alloc, test, metric)
}

// Its changes; none where there is no memory.
fn made_of(alloc: Global, metric: &[u8]) -> Option<ChangeItems> {
    let done = done_in(alloc, metric)?;
    changes(alloc, &done).ok()
}

// Whether the commits beside cut i are these.
fn lies_between(alloc: Global, i: usize, wanted: Beside) -> bool {
    match done_in(alloc, b"ns/op") {
        Some(done) => i < done.cert.cuts.len() && commits_beside(&done, i) == wanted,
        None => false,
    }
}

// Whether these are all.
fn are(alloc: Global, metric: &[u8], wanted: &[Change]) -> bool {
    match made_of(alloc, metric) {
        Some(made) => made.as_slice() == wanted,
        None => false,
    }
}

// Times are worse where they rise, and rates where they fall.
#[test]
fn changes_have_their_direction(rt: HostRuntime) {
    let first = Change {
        before: 1,
        after: 2,
        left: 0,
        right: 10,
        worse: true,
    };
    let second = Change {
        before: 3,
        after: 4,
        left: 10,
        right: -5,
        worse: false,
    };
    let faster = Change {
        worse: false,
        ..first
    };
    let slower = Change {
        worse: true,
        ..second
    };
    assert!(rt; are(rt.alloc(), b"ns/op", &[first, second]));
    assert!(rt; are(rt.alloc(), b"MB/s", &[faster, slower]));
    let beside = Beside {
        before: 3,
        after: 4,
    };
    assert!(rt; lies_between(rt.alloc(), 1, beside));
}
