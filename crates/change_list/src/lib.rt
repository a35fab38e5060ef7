//! The changes that a finished segmentation shows: one for each of its cuts.
//!
//! `specs/Changes.antt` says what a change is. The centres beside a cut are never equal: joining two segments
//! about one centre would cost no more, and of several cut lists of least total the one with the earlier last cut is
//! taken. It stands on `segment_cost` and the directions of `metric_table`.
#![tactic(auto)]

mod beside;
mod change;
mod last;
mod made;

pub use beside::{Beside, commits_beside};
pub use change::Change;
pub use last::last_centre;
pub use made::changes;
pub use segment_cost::one_certificate_law;

/// A list of changes.
pub type ChangeItems = line_text::Items<Change>;
