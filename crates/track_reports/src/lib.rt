//! The requests that tell what was published: the changes and the certificate of a series, and the report of a machine.
//!
//! Each answers exactly what the definitions give on the history so far, and adds nothing. What was published of a
//! series is told as it was made, whatever came later.
//!
//! Stands on `machine_state` for the state of a machine, on `change_list` for what positions show, and on `report_lines`
//! for the lines of reports.
#![tactic(auto)]

mod pages;
mod told;

pub use pages::report;
pub use std::alloc::AllocError as NoMemory;
pub use told::{changes, verify};
