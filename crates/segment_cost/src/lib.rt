//! The values that the segmentation works on, and what it answers.
//!
//! `Points` is a list of positions, each a commit with its values, from `point_list`, and `FrozenPoints` one that doesn't
//! change any more. `Cert` is a certificate: a cut list, its total and the tables that show it to be the best.
//! `specs/Certificate.antt` says when a certificate stands for points, a penalty and a least length of segments, and
//! `one_certificate_law` that no such three have two.
//!
//! `Cost` says what each segment of some positions costs; `Square` is the least sum of squares about a whole number.
//!
//! It stands on the definitions of `segment_model`, the points of `point_list`, the sums of `prefix_sums` and the lists
//! of `line_text`.
#![tactic(auto)]

mod cert;
mod cost;
mod cuts;
mod done;
mod laws;
mod square;

pub use cert::Cert;
pub use cost::Cost;
pub use cuts::{cuts_back, is_candidate};
pub use done::Done;
pub use laws::{certificate_law, one_certificate_law};
pub use point_list::{FrozenPoints, PointFault, Points};
pub use square::Square;
pub use std::alloc::AllocError as NoMemory;

/// A list of whole numbers of 128 bits: costs and totals.
pub type Costs = line_text::Items<i128>;

/// A list of places, of which there are at most 16,385.
pub type Places = line_text::Items<u16>;
