//! Costs and centres of some values, and a copy of a certificate.
use crate::tests::given::{has_text, points_of};
use line_text::Duplicate;
use part_core::part;
use segment_cost::{Cert, Cost, Square};
use std::alloc::Global;

// The costs of the segments of some values, each at a commit of its own; none where there is no memory.
fn square_of(alloc: Global, lines: &[(u64, i64)]) -> Option<Square> {
    let points = points_of(alloc, lines)?;
    Square::of_points(alloc, &points).ok()
}

// Whether the segment of all of them costs so much and has this centre.
fn has(alloc: Global, lines: &[(u64, i64)], cost: i128, centre: i64) -> bool {
    match square_of(alloc, lines) {
        Some(square) => {
            let n = square.len();
            n > 0 && square.cost(0, n) == cost && square.centre(0, n) == centre
        }
        None => false,
    }
}

// The centre is the whole number nearest to the mean, and the smaller of two that are as near.
#[test]
fn centres_are_nearest_to_the_mean(rt: HostRuntime) {
    let rows: [(&[(u64, i64)], i128, i64); 5] = [
        (&[(1, 0), (2, 1)], 1, 0),
        (&[(1, -1), (2, 0)], 1, -1),
        (&[(1, 0), (2, 0), (3, 1)], 1, 0),
        (&[(1, 0), (2, 1), (3, 1)], 1, 1),
        (&[(1, -1), (2, 0), (3, 0)], 1, 0),
    ];
    for (lines, cost, centre) in &rows {
        assert!(rt; has(rt.alloc(), lines, *cost, *centre), "{lines:?}");
    }
}

// A copy of the certificate of no position; none where there is no memory.
fn copied(alloc: Global) -> Option<Cert> {
    let cert = part(alloc, &points_of(alloc, &[])?, 5, 1).ok()?;
    cert.copy(alloc).ok()
}

#[test]
fn certificates_are_copied(rt: HostRuntime) {
    assert!(rt;
        has_text(
            rt.alloc(),
            copied(rt.alloc()),
            "points 0\npenalty 5\ncuts\ntotal 0\nleast -5\nback 0\npruned 0\n"
        )
    );
}
