//! The series of a machine: of each, since which step it is known, and its positions.
//!
//! Contracts see what is kept of any series, by [`seen`](specs/Seen.antt): a series that never had a sample is unknown and
//! has no positions. A sample is put in, and all samples of one step are taken out again, by look-ups that take no
//! memory: of the test by a hash of its name, then of the metric among those of the test, in logarithmic time. The series are
//! put in order of test and metric when they are listed. A sample that is put in waits in its series, and finds its
//! place with all others that wait there once the positions are asked for: [`SeriesIndex::points`].
//!
//! Stands on `point_list` for the positions, on `name_index` for the tests by name and on `history_model` for series.
#![tactic(auto)]

mod coming;
mod demand;
mod known;
mod laws;
mod log;
mod metrics;
mod series;
mod tracked;

pub use demand::Demand;
pub use known::{SeriesName, SeriesNames};
pub use laws::undo_law;
pub use log::PointLog;
pub use series::SeriesIndex;
pub use std::alloc::AllocError as NoMemory;
pub use tracked::Tracked;
