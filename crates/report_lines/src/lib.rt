//! The lines of a report, made from the indexes of a machine: a line for each known series, each regression and each
//! bisection.
//!
//! Contracts say of each line what the indexes have of its series, its regression or its bisection. The series come by the
//! bytes of test, then metric, regressions and bisections by number.
//!
//! Stands on `series_index` and `publication_index` for series, on `change_list` for centres, on `follow_index` for
//! regressions and bisections, on `order_index` for the names of commits, and on `report_model` for lines.
#![tactic(auto)]

mod jobs;
mod names;
mod regressions;
mod series;

pub use jobs::{asked, job_lines, told};
pub use regressions::regression_lines;
pub use series::series_lines;
pub use std::alloc::AllocError as NoMemory;
