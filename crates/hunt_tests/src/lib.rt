//! Tests of the command `hunt` below its words: worked hunts over runners in memory, and one over programs of the system.
#![tactic(auto)]

#[cfg(test)]
mod rows;
#[cfg(test)]
mod system;
