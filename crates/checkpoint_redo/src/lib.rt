//! A table, redone for positions that were edited.
//!
//! [`redo`] turns the table of some positions into the table of others: it keeps what both have in common at their
//! front, and advances by what stands behind that in the new ones. So its steps are counted exactly, whatever was edited.
//!
//! Stands on the pruned table of `pelt_core`, the points of `point_list` and the definitions of `segment_model`.
#![tactic(auto)]

mod redoing;

pub use redoing::{redo, redo_from};
pub use segment_cost::NoMemory;
