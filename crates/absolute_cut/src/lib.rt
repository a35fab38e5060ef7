//! The best segmentation of points by least absolute deviation, with the table that shows it, and its text.
//!
//! `specs/Certificate.antt` says when a certificate stands for points, a penalty and a least length of segments by distances: as
//! one does by squares,
//! with the least sum of distances of a segment for its cost. `one_certificate_law` says that no two do.
//!
//! Promised: `segmentation` gives the one that does, and `put_segmentation` its text; the only error is want of memory.
//!
//! It stands on the definitions of `distance_model` and `segment_model`, on the cost of `absolute_cost`, on the pruned table
//! of `pelt_core`, and on the text of `cost_certificate`.
#![tactic(auto)]

mod laws;
mod made;

pub use laws::{certificate_law, one_certificate_law};
pub use made::{put_segmentation, segmentation};
pub use segment_cost::NoMemory;
