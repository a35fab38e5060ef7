//! Tests of the crates that read the bodies of submissions, and of those that write reports, each crate's in the module
//! `of_` and its name.
//!
//! They show what no clause says: worked examples, values from outside, and each call with ample memory. They use what
//! those crates export and nothing else, so they stand apart from them: a crate is then proved once, and not once more
//! for its tests.
#![tactic(auto)]

#[cfg(test)]
mod tests;
