//! The positions of a series: the values that the segmentation works on, kept in order as they come and go.
//!
//! `Points` is a list of positions, each a commit with its values and the steps that brought them. Its type keeps the
//! limits, and [`Points::limits`] says so. A value is put into its position, or a new position in its place, and all
//! values of one step are taken away again; each finds its position by a binary search. `FrozenPoints` are positions that
//! don't change any more, with several owners: those of one list share what it has kept since they were taken.
//!
//! Stands on the definitions of `segment_model`.
#![tactic(auto)]

mod blocks;
mod fault;
mod frozen;
mod points;
mod positions;
mod prefix;
mod steps;
mod stored;

pub use fault::PointFault;
pub use frozen::FrozenPoints;
pub use points::Points;
pub use prefix::common_prefix;
pub use std::alloc::AllocError as NoMemory;
pub use steps::steps_law;
