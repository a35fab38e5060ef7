//! Audits of files in memory, with ample memory.
//!
//! They are rows of tables, and changes in the files of three runs, and call what `play_audit` exports, and nothing else.
#![tactic(auto)]

#[cfg(test)]
mod of_changes;
#[cfg(test)]
mod of_play_audit;
#[cfg(test)]
mod runs;
