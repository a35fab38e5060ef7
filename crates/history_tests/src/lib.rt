//! Tests of the crates that hold histories, each crate's in the module `of_` and its name.
//!
//! They show what no clause says: worked examples, and each call with ample memory that no script reaches. What
//! scripts reach is shown by the rows of `command_tests`. They use what those crates export and nothing else, so they
//! stand apart from them: a crate is then proved once, and not once more for its tests.
#![tactic(auto)]

#[cfg(test)]
mod of_bisect_core;
#[cfg(test)]
mod of_history_model;
#[cfg(test)]
mod of_order_index;
#[cfg(test)]
mod of_wide_bisect;
