//! A trial whose input or output fails.
use crate::tests::run::{Fails, READ_FAILS, Run, WRITE_FAILS, ends};
use std::alloc::Global;
use tracker_top::Status;

// What is told of the script of 7, by a plain model written apart from the program.
const SEVEN: &str =
    "@602 segmented version 601 base 0 points 100 cuts 3 redone 100 total 1271803846154\n@703 segmented version 702 base 601 points 200 cuts 3 redone 199 total 1576014468995\n@804 segmented version 803 base 702 points 300 cuts 3 redone 298 total 1907210609338\n@905 segmented version 904 base 803 points 400 cuts 3 redone 397 total 2296535773587\n@1006 segmented version 1005 base 904 points 500 cuts 3 redone 493 total 2683844800000\n@1107 segmented version 1106 base 1005 points 500 cuts 3 redone 500 total 3013697284359\n@1208 segmented version 1207 base 1106 points 500 cuts 3 redone 499 total 3392588946150\n@1309 segmented version 1308 base 1207 points 500 cuts 3 redone 498 total 3701532149975\n@1410 segmented version 1409 base 1308 points 500 cuts 3 redone 497 total 4049092078906\n@1511 segmented version 1510 base 1409 points 500 cuts 3 redone 493 total 4440007200000\n@1612 segmented version 1611 base 1510 points 500 cuts 3 redone 500 total 4818436835010\n@1713 segmented version 1712 base 1611 points 500 cuts 3 redone 499 total 5138124402768\n@1814 segmented version 1813 base 1712 points 500 cuts 3 redone 498 total 5476456556869\n@1915 segmented version 1914 base 1813 points 500 cuts 3 redone 497 total 5877917206012\n@2016 segmented version 2015 base 1914 points 500 cuts 3 redone 493 total 6237706666750\n@2117 segmented version 2116 base 2015 points 500 cuts 3 redone 500 total 6665858068072\n@2218 segmented version 2217 base 2116 points 500 cuts 3 redone 499 total 7036955830274\n@2319 segmented version 2318 base 2217 points 500 cuts 3 redone 498 total 7394586237777\n@2420 segmented version 2419 base 2318 points 500 cuts 3 redone 497 total 7746058888332\n@2521 segmented version 2520 base 2419 points 500 cuts 3 redone 493 total 8122657800000\n@2532 segmented version 2531 base 2520 points 500 cuts 3 redone 500 total 8092376084276\n@2532 changes version 2531 lines 3\nc124 c125 1010.2399 1110.1205 regression\nc249 c250 1110.1205 1210.3333 regression\nc374 c375 1210.3333 1309.5964 regression\n";

// The input isn't read, and may fail; where the write of the replies fails, none is told.
const TRIALS: [(Fails, Status, &str, &str); 2] = [
    (READ_FAILS, Status::Done, SEVEN, ""),
    (WRITE_FAILS, Status::WriteFault, "", "write fault\n"),
];

#[test]
fn segmentations_of_seven_are_told(rt: HostRuntime) {
    for (fails, status, out, err) in &TRIALS {
        assert!(rt; is_tried(rt.alloc(), fails, *status, out, err), "{err}");
    }
}

fn is_tried(alloc: Global, fails: &Fails, status: Status, out: &str, err: &str) -> bool {
    let run = Run {
        words: "trial 7",
        input: b"x",
        fails: *fails,
        status,
        out: out.as_bytes(),
        err,
    };
    ends(alloc, &run)
}
