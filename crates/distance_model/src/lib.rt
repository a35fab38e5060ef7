//! What the sum of distances of some values from a number is, and the number about which it is least.
//!
//! `specs/Distances.antt` has the definitions, and what a segment of points costs by them: least absolute deviation. The
//! function does nothing: its contract says that the value in the middle is the one centre, so that this is proved. What
//! an implementation of such a cost needs, that costs merge and are in range, is exported as lemmas (`proofs/Middles`).
//!
//! It stands on the definitions of `segment_model`.
#![tactic(auto)]

mod laws;

pub use laws::absolute_law;
