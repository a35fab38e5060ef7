//! Each public call of the program's libraries, named once with its types: where one is missing, or has others, this crate
//! doesn't compile. So are the cases of what calls answer, and the fields of what they take and give. The calls of machines
//! and of the program, which stand on much, are named likewise by the modules `stated_calls` of `room_tests` and
//! `command_tests`; the keeper in a database is made by `store_tests` alone, since a program with the database takes long
//! to compile.
//!
//! A call is named as a pointer of its type. One that gives a reference away is called instead, since such a pointer can't
//! be made today. Nothing of it is run, but for one test. docs/DECISIONS.md says which calls have other types than a plain
//! reading of their purpose gives, and why.
#![tactic(auto)]

#[cfg(test)]
mod tests;
