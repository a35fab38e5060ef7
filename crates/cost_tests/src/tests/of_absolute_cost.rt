//! The centre and the cost of some values by distances.

use absolute_cost::Absolute;
use segment_cost::Cost;
use std::alloc::Global;

// The cost and the centre of one position with an outlier; none where there is no memory.
fn measured(alloc: Global) -> Option<(i128, i64)> {
    let mut absolute = Absolute::fresh(alloc);
    absolute.reserve(4).ok()?;
    absolute.push(&[1, 900, 0, 2]);
    Some((absolute.cost(0, 1), absolute.centre(0, 1)))
}

// Of two values in the middle the lower one is the centre.
#[test]
fn an_outlier_moves_no_centre(rt: HostRuntime) {
    assert_eq!(rt; measured(rt.alloc()), Some((901, 1)));
}
