//! A hunt for the first bad commit of a list, in which several commits are tested at once.
//!
//! A search by rounds says which commits to test; each commit of a round is asked of a runner of its own, at once with the
//! others where threads can be had.
//!
//! Promised: the search that [`hunt`] gives is closed, and the one to which the answers of the runners lead, within its
//! bound of rounds; each runner was asked just the places that are its own, and failed in each ask that has no status.
//! Whatever comes of it, nothing was asked but the test on some of the commits.
//!
//! Stands on `wide_bisect`, which says what a round asks, on the threads of `side_by_side`, and on the runners of
//! `track_outside`.
#![tactic(auto)]

mod asking;
mod round;
mod search;

pub use line_text::NoMemory;
pub use search::hunt;
