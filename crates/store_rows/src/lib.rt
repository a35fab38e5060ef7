//! The rows of a store: their text both ways, and how they are loaded and appended.
//!
//! A row is `machine M`, or `entry M TEXT`, where M is a name in its canonical spelling. What rows
//! make is left to whoever implements [`Restored`] and [`Recorded`]: `load_into` takes the rows of
//! a keeper into it, one after another, and `append_each` adds the new rows of each by one call.
//!
//! Proved: bytes are read exactly where they are a row, and are one row at most; what is loaded is
//! what the rows lead to, or the first bad row is named; all new rows are added, or none; a fault
//! is answered only where the keeper counted one. The functions whose name ends in `_law` do
//! nothing: their contracts are laws of these definitions, for proofs above.
//!
//! Stands on `track_outside`, which has keepers, and on `line_text`, which has names.
#![tactic(auto)]

mod append;
mod load;
mod restored;
mod row;

pub use append::{AppendFault, Recorded, append_each};
pub use load::{LoadFault, load_into, loading_law};
pub use restored::Restored;
pub use row::{Head, RowFault, put_entry_row, put_machine_row, read_row, rows_law};
pub use std::alloc::AllocError as NoMemory;
