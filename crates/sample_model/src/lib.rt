//! Samples and lists of samples: what the readers of bodies give and histories are made of.
//!
//! A sample is a value of a test by a metric. Its metric has at most 64 bytes, its value a magnitude of at most 10^16,
//! and a list of samples at most 65,536 of them: the types keep this, and `Sample::limits` and `Samples::limits` say so
//! to every caller. Contracts see a sample as a record of two texts and a whole number, and a list as a list of these
//! (`specs/Samples`).
//!
//! Stands on `line_text` for names and on `metric_table` for the limits.
#![tactic(auto)]

mod sample;
mod samples;

pub use sample::Sample;
pub use samples::Samples;
pub use std::alloc::AllocError as NoMemory;
