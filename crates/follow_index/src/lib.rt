//! The regressions and the bisections of a machine, by number.
//!
//! Contracts see two lists, numbered from 1: the regressions that were raised, each with its state, and the bisections that
//! were begun, each where it stands. Look-ups and changes take constant time, and so does the count of open bisections,
//! which the type keeps.
//!
//! Stands on `history_model` for what is raised, on `regression_state` for states, on `bisect_core` for bisections and on
//! `line_text` for lists of commits.
#![tactic(auto)]

mod jobs;
mod regressions;

pub use jobs::JobIndex;
pub use regressions::{Followed, RegressionIndex};
pub use std::alloc::AllocError as NoMemory;
