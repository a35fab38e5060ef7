//! The counts, sums and sums of squares of the values of neighbouring positions, each in constant time.
//!
//! `PrefixSums` keeps, for each position, the sums of all values up to it, so that the sums of a segment are a
//! difference. Contracts see its positions, each as the list of its values, and how many more there is room for. The
//! values themselves aren't kept: `Seen` stands for them in proofs and has no bytes.
//!
//! It stands on the definitions of `segment_model`.
#![tactic(auto)]

mod prefixes;
mod seen;
mod sum_list;
mod sums;

pub use prefixes::PrefixSums;
pub use std::alloc::AllocError as NoMemory;
pub use sums::Sums;
