//! Shared runs and audits of their files whose files, stores or runners fail at some call, workers that a gate holds, and hunts
//! whose runners are looked at, over objects in memory with ample memory. Runs that meet no fault are cases of the built
//! program, in `tests/`.
//!
//! They are rows of a table, and call what `tracker_top` exports and nothing else of it. `run.rt` makes the objects of a run,
//! one after another, and answers false where there is no memory.
#![tactic(auto)]

#[cfg(test)]
mod tests;
