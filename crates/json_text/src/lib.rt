//! JSON text (RFC 8259) read into a tree, with the place of each fault.
//!
//! `read_json` gives the tree exactly where the bytes are UTF-8 and a JSON text of at most 32 levels, and otherwise the one fault that is
//! due, at its place. Numbers keep their spelling, objects the order of their members and the keys that come again. All bytes are first
//! checked to be UTF-8, then read in one pass: both are linear in the bytes, with no recursion. The tree holds one copy of the text, which
//! its numbers, texts and keys share.
#![tactic(auto)]

mod class;
mod lexeme;
mod machine;
pub mod reading;
pub mod shape;
pub mod shared;
mod state;
mod token;
pub mod tree;

pub use reading::{JsonFault, one_answer_law, one_tree_law, read_json};
pub use shape::Shape;
pub use shared::SharedText;
pub use std::alloc::AllocError as NoMemory;
pub use tree::{Json, JsonList, JsonMembers, Member};
