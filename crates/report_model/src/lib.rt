//! The facts of a report, plainly: a line for each series, each regression and each bisection.
//!
//! Requests and replies speak of these types too: [`Told`] says where a bisection stands, with its commits by name. Names
//! are kept as they are.
//!
//! Promised: [`put_told`] appends exactly the text of the definition, or nothing where there
//! is no memory. Stands on `line_text`, and on `regression_state`, which has the states.
#![tactic(auto)]

mod items;
mod outcome_text;
mod pages;
mod told;

pub use items::{JobLine, JobLines, RegressionLine, RegressionLines, SeriesLine, SeriesLines};
pub use outcome_text::put_told;
pub use pages::Pages;
pub use std::alloc::AllocError as NoMemory;
pub use told::Told;
