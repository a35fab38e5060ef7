//! The command `hunt`, below its words and statuses: from the names of commits on its input to the line of what it found.
//!
//! [`hunt_commits`] reads the names, hunts for two neighbours of which the first is good and the second is bad, and writes
//! one line. Promised: at each end what the input showed, what was written, and what was asked of which runner; a search
//! whose answers are those that the runners gave, within its bound of rounds.
//!
//! Stands on `commit_lines` for the names, on `hunt_rounds` for the search, and on the objects of `track_outside`.
#![tactic(auto)]

mod command;
mod end;
mod text;

pub use command::hunt_commits;
pub use commit_lines::{Refusal, Stop};
pub use end::HuntEnd;
pub use text::put_hunt;
