//! The entries of a history, and the one text that spells each.
//!
//! The types stand in `history_model`, since definitions of histories cite them too. An entry's text has single spaces
//! between its words, canonical names and numbers; `read_entry_v1` reads the texts of version 1, in which a setting had no
//! least length. By [`entry_law`] and [`legal_law`] each entry of a legal history has one.
#![tactic(auto)]

mod events;
mod fault;
mod fits;
mod kind;
mod put;
mod read;
mod versions;
mod words;

pub use fault::EntryFault;
pub use fits::{entry_law, legal_law};
pub use history_model::{Author, Entry, Placed, Publication};
pub use put::put_entry;
pub use read::{entries_law, read_entry, read_entry_with};
pub use std::alloc::AllocError as NoMemory;
pub use versions::{entries_v1_law, read_entry_v1, read_entry_v1_with};
