//! The lines of journals' texts, read: that of a machine, and those of its entries.
//!
//! [`read_head`] and [`read_step`] read a line exactly where it is the text that is written of a machine or of an entry;
//! by [`lines_law`] a line says one thing at most.
//!
//! Stands on `track_entry` for the texts of entries. `specs/Texts.antt` has the texts of the lines, which `journal_text` writes.
#![tactic(auto)]

mod author;
mod coming;
mod fault;
mod head;
mod history;
mod laws;
mod lines;
mod parts;
mod step;

pub use fault::LineFault;
pub use head::{Head, read_head};
pub use history::read_history;
pub use laws::lines_law;
pub use lines::{Line, Lines};
pub use parts::{Parts, first_word};
pub use std::alloc::AllocError as NoMemory;
pub use step::read_step;
