//! Go benchmark text, both ways: what the benchmark tool of Go prints is read as samples, and samples are
//! written so that reading gives them back.
//!
//! A result line has a name, a count, and pairs of a value and a unit; a configuration line `pkg` says of
//! what package the benchmarks below it are. Promised: which kind a line is ([`line_kind`]); which samples
//! a text has and no others, how many lines are ignored and counted, and which line is the first out of
//! range ([`read_go`]); that the text of samples is the one the rules give and reads as exactly these
//! samples, and which sample is the first that has no spelling ([`put_go`]).
//!
//! The definitions are in `specs/`: `Bytes`, `Characters`, `Fields`, `Lines` (the kinds of lines),
//! `Readings` (the samples of a text), `Spellings` (how samples are written). Stands on `sample_model`
//! for samples, `metric_value` for values, `line_text` for names and lines, `memchr` for where a line ends,
//! `smallvec` for the pairs of a line, and `unicode` for upper and lower case.
#![tactic(auto)]

mod characters;
mod config;
mod fault;
mod fields;
mod gather;
mod line;
mod pairs;
mod put;
mod read;
mod sample;
mod spelling;

pub use line::{LineKind, line_kind};
pub use put::{PutFault, put_go};
pub use read::{GoFault, GoRun, one_reading_law, read_go, read_go_with};
