//! Ranges of commits, with ample memory.
use line_text::Name;
use order_index::OrderIndex;
use std::alloc::Global;

// Commits by number and name, whose numbers rise, and the same in another order.
const RISING: [(u64, &str); 3] = [(10, "a"), (20, "b"), (30, "c")];

const MIXED: [(u64, &str); 3] = [(30, "c"), (10, "a"), (20, "b")];

// Declares a commit; no where there is no memory.
fn declares(index: &mut OrderIndex, alloc: Global, number: u64, name: &str) -> bool {
    match Name::of_str(alloc, name) {
        Ok(name) => index.declare(1, number, name).is_ok(),
        Err(_) => false,
    }
}

// Whether these commits, declared in this order, have these in a range.
fn have(alloc: Global, commits: &[(u64, &str)], lo: u64, hi: u64, wanted: &[u64]) -> bool {
    let mut index = OrderIndex::new(alloc);
    for (number, name) in commits {
        if !declares(&mut index, alloc, *number, name) {
            return false;
        }
    }
    match index.between(alloc, lo, hi) {
        Ok(found) => found.as_slice() == wanted,
        Err(_) => false,
    }
}

#[test]
fn a_range_has_its_ends(rt: HostRuntime) {
    let rows: [(u64, u64, &[u64]); 5] = [
        (0, 99, &[10, 20, 30]),
        (10, 20, &[10, 20]),
        (11, 29, &[20]),
        (31, 99, &[]),
        (31, 10, &[]),
    ];
    for (lo, hi, wanted) in &rows {
        assert!(rt;
            have(rt.alloc(), &MIXED, *lo, *hi, wanted),
            "mixed, {lo} to {hi}"
        );
        assert!(rt;
            have(rt.alloc(), &RISING, *lo, *hi, wanted),
            "rising, {lo} to {hi}"
        );
    }
}
