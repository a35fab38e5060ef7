//! A keeper of rows in a SQLite file.
//!
//! A file that isn't there is made by the first append that has rows; whatever the file's rows answer as an error is a fault,
//! but for want of memory. Rows are counted by `start`, which can tell want of memory: `count` tells what was counted
//! there, and what was appended since.
//!
//! Proved against the trait of keepers: a call answers `Failed` only where its count rose. It tells neither rows nor names:
//! what a database holds no contract here can say, so tests show it (`store_tests`).
//!
//! Stands on `track_outside` for the trait, on `sqlite_rows` for the file, and on `sqlite` for its errors.
#![tactic(auto)]

mod keeper;

pub use keeper::SqliteKeeper;
