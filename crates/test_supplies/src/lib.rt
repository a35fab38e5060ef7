//! What tests of several crates are given or compare with: the texts of worked paths, and the states of a regression.
//!
//! They are constants alone, so nothing here is proved, and no crate but those of tests stands on it. Stands on
//! `regression_state`.
#![tactic(auto)]

mod paths;
mod states;

pub use paths::{PATH_OF_FOUR, PATH_OF_NONE, PATH_OF_TEN};
pub use states::STATES;
