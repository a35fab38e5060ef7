//! The texts of segmentations by distances.
ghost use Rattle.std.specs.Prelude.{◌^◌, pos, ◌≤ℤ◌};
ghost use Rattle.segment_model.specs.Limits.{IsLength};

use crate::tests::given::{FOUR, points_of};
use absolute_cut::put_segmentation;
use std::alloc::Global;

/// The values of positions, a penalty, a least length, and the certificate's text.
type Case<'a> = (&'a [(u64, i64)], i128, u8, &'a str);

// A step up and down, and a smaller one.
const EIGHT: &[(u64, i64)] = &[
    (1, 0),
    (2, 0),
    (3, 0),
    (4, 10),
    (5, 9),
    (6, 0),
    (7, 1),
    (8, 0),
];

/// A step; an outlier, which the sum of distances bears; several values at a position; none; two longer ones, and two
/// with segments of two and of three positions, whose texts a search of all cut lists gave.
const CASES: [Case; 8] = [
    (
        FOUR,
        5,
        1,
        "points 4\npenalty 5\ncuts 2\ntotal 5\nleast -5 0 0 5 5\nback 0 0 0 2 2\npruned 4 3 0 0 0\n",
    ),
    (
        &[(1, 0), (2, 0), (3, 9), (4, 0), (5, 0)],
        6,
        1,
        "points 5\npenalty 6\ncuts\ntotal 9\nleast -6 0 0 6 9 9\nback 0 0 0 2 0 0\npruned 0 3 0 0 0 0\n",
    ),
    (
        &[(5, 0), (5, 100), (5, -100)],
        1,
        1,
        "points 1\npenalty 1\ncuts\ntotal 200\nleast -1 200\nback 0 0\npruned 0 0\n",
    ),
    (
        &[],
        7,
        1,
        "points 0\npenalty 7\ncuts\ntotal 0\nleast -7\nback 0\npruned 0\n",
    ),
    (
        &[
            (1, 3),
            (1, -1),
            (2, 4),
            (3, 4),
            (3, 5),
            (3, -7),
            (4, 100),
            (4, 101),
            (5, 99),
            (5, 98),
            (5, -500),
            (6, 102),
            (7, 0),
        ],
        20,
        1,
        "points 7\npenalty 20\ncuts 3 6\ntotal 664\nleast -20 4 5 18 39 641 644 664\nback 0 0 0 0 3 3 3 6\npruned 4 4 4 7 7 7 0 0\n",
    ),
    (
        &[
            (1, 5),
            (2, -5),
            (3, 7),
            (4, -7),
            (5, 1000),
            (6, 1003),
            (7, 998),
            (8, -20),
        ],
        11,
        1,
        "points 8\npenalty 11\ncuts 3 4 7\ntotal 50\nleast -11 0 10 12 23 34 37 39 50\nback 0 0 0 0 3 4 4 4 7\npruned 5 5 4 5 8 8 8 0 0\n",
    ),
    (
        EIGHT,
        4,
        2,
        "points 8\npenalty 4\nlength 2\ncuts 3 5\ntotal 10\nleast -4 0 0 0 10 5 14 10 10\nback 0 0 0 0 0 3 3 5 5\npruned 5 0 5 7 5 0 7 0 0\n",
    ),
    (
        EIGHT,
        4,
        3,
        "points 8\npenalty 4\nlength 3\ncuts\ntotal 20\nleast -4 0 0 0 10 19 14 20 20\nback 0 0 0 0 0 0 3 0 0\npruned 6 0 0 0 6 6 0 0 0\n",
    ),
];

// Whether the segmentation by distances of some values is printed so.
fn is_put(alloc: Global, lines: &[(u64, i64)], penalty: i128, length: u8, text: &str) -> bool
    requires low { pos 0 ≤ℤ penalty }
    requires high { penalty ≤ℤ pos (10 ^ 36) }
    requires length { IsLength length }
{
    let Some(points) = points_of(alloc, lines) else {
        return false;
    };
    let mut out = Vec::new(alloc);
    put_segmentation(alloc, &points, penalty, length, &mut out).is_ok()
        && out.as_slice() == text.as_bytes()
}

// Whether that of a case is.
fn is_put_so(alloc: Global, case: &Case) -> bool {
    let (lines, penalty, length, text) = case;
    if *penalty < 0 || *penalty > 1_000 || *length == 0 || *length > 64 {
        return false;
    }
    is_put(alloc, lines, *penalty, *length, text)
}

#[test]
fn segmentations_by_distances_are_printed(rt: HostRuntime) {
    for (row, case) in CASES.iter().enumerate() {
        assert!(rt; is_put_so(rt.alloc(), case), "row {row}");
    }
}
