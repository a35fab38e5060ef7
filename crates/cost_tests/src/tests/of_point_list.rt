//! Points that are frozen before and after they change, with ample memory.
use crate::tests::given::points_of;
use point_list::common_prefix;
use std::alloc::Global;

// Points of 300 commits, frozen before and after two of them go: how many there are at first and in the end, and how many
// each has in common with the one before it; none where there is no memory.
fn frozen(alloc: Global) -> Option<(usize, usize, usize, usize)> {
    let mut lines = Vec::new(alloc);
    for commit in 0..300_u64 {
        lines.push((commit, 7_i64)).ok()?;
    }
    let mut points = points_of(alloc, lines.as_slice())?;
    let first = points.freeze().ok()?;
    points.remove(200, 200);
    let second = points.freeze().ok()?;
    points.remove(5, 5);
    let third = points.freeze().ok()?;
    let common = common_prefix(&first, &second);
    let later = common_prefix(&second, &third);
    Some((first.len(), third.len(), common, later))
}

#[test]
fn frozen_points_stay_as_they_were(rt: HostRuntime) {
    assert!(rt; frozen(rt.alloc()) == Some((300, 298, 200, 5)));
}
