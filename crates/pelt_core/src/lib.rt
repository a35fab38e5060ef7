//! The best segmentation of some points, from a pruned table.
//!
//! `segmentation` gives the certificate that stands for its points and a penalty, as `segment_cost` defines that; since
//! no two do, it is the one that `part_core` finds with its plain table. `Table` is the table itself, over any `Cost`
//! of segments: it is advanced by a position, rewound to the first ones, and gives its certificate at any time.
//! `Steps` counts the positions that tables were advanced by, in proofs alone.
//!
//! A place is pruned once the least total up to it and a last segment from it come to more than the least total at that
//! segment's end; at equality it isn't. It is no candidate for a last cut any more from the place on at which that end is one
//! itself, which is a least length of segments behind it.
//!
//! The candidates stand in blocks of 256, and each block has a bound: a place, and at most the total that any of its
//! candidates makes by a last segment to that place. Neighbouring segments cost together at most what their union
//! costs, so by a last segment to a later place each candidate makes at least that total and the cost of the segment
//! between the two places. A block whose bound can't beat the best candidate so far is passed over; the candidates of
//! any other block are looked at, and their least total is its new bound. Blocks share few places, so that few costs are
//! asked for at each position.
//!
//! It stands on the definitions and laws of `segment_model`, on the points, costs and certificates of `segment_cost`
//! and on the lists of `line_text`. `cost_tests` compares it with `part_core`.
#![tactic(auto)]

mod bounds;
mod candidates;
mod from_points;
mod rows;
mod steps;
mod table;

pub use from_points::{certificate_by, segmentation};
pub use segment_cost::{Done, Square};
pub use steps::Steps;
pub use table::Table;
