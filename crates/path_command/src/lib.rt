//! The command `path`, below its words and statuses: from cut lines on its input to the text of their path.
//!
//! [`path_points`] reads cut lines of 1,024 positions at most, finds the best cut list at each penalty of a range, and writes
//! them as stretches of one list. Promised: at each end what the input showed and what was written.
#![tactic(auto)]

mod command;
mod end;

pub use command::path_points;
pub use cut_lines::{Refusal, Stop};
pub use end::PathEnd;
