//! Tests of the keeper of rows in a SQLite file, over files that they make. Scripts that such a file keeps are cases of the
//! built program, in `tests/`.
//!
//! They call what `keep_sqlite` exports and nothing else of it: tests in its own folder would prove it once more, and each
//! program that has the kit's database takes two compilers minutes.
#![tactic(auto)]

#[cfg(test)]
mod of_keep_sqlite;
