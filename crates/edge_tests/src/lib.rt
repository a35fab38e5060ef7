//! Tests of the crates at the edge of the program, each crate's in the module `of_` and its name: the words of a command,
//! the objects of the outside, the rows of a store, and the lock.
//!
//! They show what no clause says: worked examples, real files and threads, and each call with ample memory. They use what
//! those crates export and nothing else, so they stand apart from them: a crate is then proved once, and not once more for
//! its tests.
#![tactic(auto)]

#[cfg(test)]
mod tests;
