//! The tests.

mod audits;
mod closes;
mod hunts;
mod run;
mod runs;
mod workers;
