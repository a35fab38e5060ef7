//! Tests of the crates that read and write text, each crate's in the module `of_` and its name.
//!
//! They show what no clause says: worked examples, values from outside, and each call with ample memory that no
//! script reaches. What scripts reach (requests and replies) is shown by the rows of `command_tests`. They use what
//! those crates export and nothing else, so they stand apart from them: a crate is then proved once, and not once
//! more for its tests.
#![tactic(auto)]

#[cfg(test)]
mod tests;
