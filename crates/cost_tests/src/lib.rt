//! Tests of the crates that cut points into segments, each crate's in the module `of_` and its name.
//!
//! They show what no clause says: worked examples from outside, and each call with ample memory that `cut` doesn't
//! reach. What it reaches is shown by the rows of `command_tests`. They use what those crates export and nothing
//! else, so they stand apart from them: a crate is then proved once, and not once more for its tests.
#![tactic(auto)]

#[cfg(test)]
mod tests;
