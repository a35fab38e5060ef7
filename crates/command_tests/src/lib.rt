//! Whole runs of the commands of one thread, over objects in memory with ample memory, whose source, output, line or store
//! fails at some call, or whose source comes byte by byte. Runs that meet no fault are cases of the built program, in `tests/`.
//!
//! They are rows of tables, and call what `tracker_top` exports and nothing else of it: tests in its own folder would prove it
//! once more. `run.rt` has what a run is given and how it is to end, and says whether it ends so: each function makes one object
//! and hands it on, so that a row costs nothing to prove.
#![tactic(auto)]

#[cfg(test)]
mod tests;
