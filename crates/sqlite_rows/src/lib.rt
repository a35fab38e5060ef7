//! Rows of bytes in a SQLite file: how a file is opened and closed, and the statements on its one table.
//!
//! A STRICT table `kept` has a row for each: a whole number, which counts them from 1, and its bytes. All rows of an
//! append go in by one transaction. A file that is no database, has another table, or is open elsewhere is an error, and so
//! is a row that isn't there, and an append where another run has added rows meanwhile. Where rows are asked for in order,
//! one statement reads many short ones ([`Ahead`]), and an error is still met at the row that has it.
//!
//! Nothing is promised of what a file holds: no contract here can say that. Tests show it (`store_tests`).
//!
//! Stands on `sqlite`, and on `sqlite_disk` and `sqlite_std_file` for opening a file with few pages in memory.
#![tactic(auto)]

mod ahead;
mod calls;
mod opening;
mod statements;

pub use ahead::Ahead;
pub use opening::{Store, append_last, find_store, open_store};
pub use statements::count_found;
