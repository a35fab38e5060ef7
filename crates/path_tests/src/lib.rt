//! Tests of the command `path` below its words: worked paths, and the limit of positions.
#![tactic(auto)]

#[cfg(test)]
mod rows;
