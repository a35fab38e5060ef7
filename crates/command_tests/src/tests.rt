//! The tests.

mod closed;
mod cutting;
mod drip;
mod failing;
mod paths;
mod run;
mod scripts;
mod stated_calls;
mod stores;
mod trials;
