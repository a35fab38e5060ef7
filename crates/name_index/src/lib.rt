//! Names, and what belongs to each.
//!
//! `NameIndex` has names in the order in which they came, each once, and tells where each of them stands. Contracts see the
//! list of names. A name is found in time that grows with its length and, at worst, with the logarithm
//! of their number, whatever the names are: whoever picks them can't make a look-up slow, though no secret is at hand.
//!
//! `OrderedMap` has keys in their order, and what belongs to each; `PairMap` the same for pairs of names. Contracts see what
//! is found of a key, by [`found`](specs/Found.antt), and of a pair, by [`found_pair`](specs/Pairs.antt); what a look-up
//! lends may be changed.
//!
//! Stands on `line_text` for names.
#![tactic(auto)]

mod hashes;
mod index;
mod map;
mod pairs;
mod places;

pub use index::NameIndex;
pub use map::OrderedMap;
pub use pairs::PairMap;
pub use std::alloc::AllocError as NoMemory;
