//! The commits of a machine, by number and by name.
//!
//! Contracts see the list of declarations in the order in which they came. No number and no name stands in two of them,
//! which the type keeps and [`OrderIndex::pairs_law`] says. A look-up by number or by name takes logarithmic or constant
//! time, whoever picks the names, so a history is taken in with no scan of it. Numbers mostly rise in the order of declaration: as long as they do,
//! they are found by halving, and no map by number is kept.
//!
//! Stands on `history_model` for declarations, on `line_text` for names and lists of numbers, on `metric_table` for the
//! limit and on `name_index` for the names.
#![tactic(auto)]

mod declared;
mod index;
mod mapped;
mod rising;

pub use declared::Declared;
pub use index::OrderIndex;
pub use std::alloc::AllocError as NoMemory;
