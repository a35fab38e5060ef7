//! The cost of segments by least absolute deviation: the sum of the distances of the values from their centre.
//!
//! [`Absolute`] says what each segment of some positions costs, and its centre, as `segment_cost` says of any cost. An
//! outlier moves it by its own distance alone, where it moves a mean and a sum of squares by far more.
//!
//! Promised: the centre is the least whole number about which the sum of distances is least, and the cost is that sum;
//! neighbours cost together at most what their union costs, and within the limits a cost is from 0 to 10^37. So a pruned
//! table over it finds the best segmentation by this cost.
//!
//! Beside the values it keeps each whole block of 32 of them in order, where there is room for it. So the values of a
//! segment up to a number are counted by a search in each of its blocks, and a look at each value before and behind these.
//!
//! It stands on `segment_cost`, which says what a cost is, on the definitions of `distance_model`, and on the sums of
//! `prefix_sums`.
#![tactic(auto)]

mod absolute;
mod blocks;
mod ends;
mod middle;
mod pieces;

pub use absolute::Absolute;
pub use segment_cost::NoMemory;
