//! The plain table's certificates, made by hand: `tracker_top` has the same of the pruned table.
ghost use Rattle.segment_model.specs.Limits.{IsLength};

use crate::tests::given::{FOUR, GREATEST, TEN, has_text, points_of};
use part_core::part;
use pelt_core::segmentation;
use segment_cost::Cert;
use std::alloc::Global;

/// Penalties, least lengths, commits with values, and the text of the certificate: a cut; one that ties with no cut; three
/// last cuts that tie and a candidate at equality; an outlier, which is a segment of its own; no points; one position; the
/// greatest and the least value; a place that is pruned before it can be a last cut, and is one; a change that is too short.
const CERTIFICATES: [(u8, u8, &[(u64, i64)], &str); 9] = [
    (
        50,
        1,
        FOUR,
        "points 4\npenalty 50\ncuts 2\ntotal 50\nleast -50 0 0 50 50\nback 0 0 0 2 2\npruned 0 4 0 0 0\n",
    ),
    (
        100,
        1,
        FOUR,
        "points 4\npenalty 100\ncuts\ntotal 100\nleast -100 0 0 67 100\nback 0 0 0 0 0\npruned 0 0 0 0 0\n",
    ),
    (
        8,
        1,
        TEN,
        "points 10\npenalty 8\ncuts\ntotal 16\nleast -8 0 0 8 8 11 12 13 14 15 16\nback 0 0 0 2 2 2 2 2 2 2 0\npruned 0 4 0 0 0 0 0 0 0 0 0\n",
    ),
    (
        6,
        1,
        &[(1, 0), (2, 0), (3, 9), (4, 0), (5, 0)],
        "points 5\npenalty 6\ncuts 2 3\ntotal 12\nleast -6 0 0 6 12 12\nback 0 0 0 2 3 3\npruned 3 3 4 0 0 0\n",
    ),
    (
        5,
        1,
        &[],
        "points 0\npenalty 5\ncuts\ntotal 0\nleast -5\nback 0\npruned 0\n",
    ),
    (
        1,
        1,
        &[(5, 0), (5, 100), (5, -100)],
        "points 1\npenalty 1\ncuts\ntotal 20000\nleast -1 20000\nback 0 0\npruned 0 0\n",
    ),
    (
        1,
        1,
        &[(1, GREATEST), (2, -GREATEST)],
        "points 2\npenalty 1\ncuts 1\ntotal 1\nleast -1 0 1\nback 0 0 1\npruned 2 0 0\n",
    ),
    (
        50,
        2,
        &[(1, 0), (2, 0), (3, 10), (4, 10), (5, 40)],
        "points 5\npenalty 50\nlength 2\ncuts 3\ntotal 567\nleast -50 0 0 67 50 567\nback 0 0 0 0 2 3\npruned 5 0 5 4 0 0\n",
    ),
    (
        5,
        2,
        &[(1, 0), (2, 0), (3, 10)],
        "points 3\npenalty 5\nlength 2\ncuts\ntotal 67\nleast -5 0 0 67\nback 0 0 0 0\npruned 0 0 0 0\n",
    ),
];

// The certificate of some commits and values; none where there is no memory.
fn cert_of(alloc: Global, penalty: u8, length: u8, lines: &[(u64, i64)]) -> Option<Cert>
    requires { IsLength length }
{
    let points = points_of(alloc, lines)?;
    part(alloc, &points, i128::from(penalty), length).ok()
}

// The pruned table's.
fn pruned_of(alloc: Global, penalty: u8, length: u8, lines: &[(u64, i64)]) -> Option<Cert>
    requires { IsLength length }
{
    let points = points_of(alloc, lines)?;
    segmentation(alloc, &points, i128::from(penalty), length).ok()
}

// Whether both tables give the certificate.
fn gives(alloc: Global, penalty: u8, length: u8, lines: &[(u64, i64)], text: &str) -> bool {
    if length == 0 || length > 64 {
        return false;
    }
    has_text(alloc, cert_of(alloc, penalty, length, lines), text)
        && has_text(alloc, pruned_of(alloc, penalty, length, lines), text)
}

#[test]
fn both_tables_give_the_certificates(rt: HostRuntime) {
    for (penalty, length, lines, text) in &CERTIFICATES {
        assert!(rt; gives(rt.alloc(), *penalty, *length, lines, text), "{text}");
    }
}
