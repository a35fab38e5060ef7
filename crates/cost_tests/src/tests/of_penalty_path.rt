//! Paths of a few points, written out and checked, with ample memory.
use crate::tests::given::{FOUR, TEN, points_of};
use penalty_path::{Stretches, check_path, counted_path, path, put_path};
use segment_cost::{Points, Square};
use std::alloc::Global;
use test_supplies::{PATH_OF_FOUR, PATH_OF_NONE, PATH_OF_TEN};

// Commits and values, the least and the greatest penalty, and the path's text.
type Row = (&'static [(u64, i64)], i128, i128, &'static str);

const ROWS: [Row; 3] = [
    (FOUR, 0, 120, PATH_OF_FOUR),
    (TEN, 8, 8, PATH_OF_TEN),
    (&[], 5, 9, PATH_OF_NONE),
];

// The path of some points; none where it can't be asked for, or there is no memory.
fn found(alloc: Global, points: &Points, low: i128, high: i128) -> Option<Stretches> {
    if points.len() > 1_024 || low < 0 || low > high || high > 1_000 {
        return None;
    }
    path(alloc, points, low, high).ok()
}

// Whether the check takes the path for this range, and not for a longer one.
fn is_taken(
    alloc: Global,
    made: &Stretches,
    points: &Points,
    low: i128,
    high: i128,
) -> Option<bool> {
    if points.len() > 1_024 || low < 0 || low > high || high > 1_000 {
        return None;
    }
    let sums = Square::of_points(alloc, points).ok()?;
    Some(
        check_path(made, points, &sums, low, high)
            && !check_path(made, points, &sums, low, high + 1),
    )
}

// Whether some stretches have this text.
fn is_written(alloc: Global, made: &Stretches, text: &str) -> bool {
    let mut out = Vec::new(alloc);
    put_path(alloc, &mut out, made).is_ok() && out.as_slice() == text.as_bytes()
}

// Whether the path of a row is its text, and is taken by the check.
fn is_path(alloc: Global, row: &Row) -> Option<bool> {
    let points = points_of(alloc, row.0)?;
    let made = found(alloc, &points, row.1, row.2)?;
    let taken = is_taken(alloc, &made, &points, row.1, row.2)?;
    Some(taken && is_written(alloc, &made, row.3))
}

#[test]
fn paths_are_found_and_checked(rt: HostRuntime) {
    for row in &ROWS {
        assert_eq!(rt; is_path(rt.alloc(), row), Some(true), "from {}", row.1);
    }
}

// How many tables are made for the first row; none where there is no memory.
fn tables(alloc: Global) -> Option<u64> {
    let points = points_of(alloc, FOUR)?;
    if points.len() > 1_024 {
        return None;
    }
    let counted = counted_path(alloc, &points, 0, 120).ok()?;
    Some(counted.tables)
}

// One each at 0 and 120; at 100, where both lists cost 100 and the one without cuts is the best; and at 99.
#[test]
fn few_tables_are_made(rt: HostRuntime) {
    assert_eq!(rt; tables(rt.alloc()), Some(4));
}
