//! Requests as text: written here, and read by `request_reader`, whose calls are named from here too.
//!
//! A request has one spelling: the words of its form with single spaces between them, names and numbers in their one
//! canonical spelling, and behind the line a body where it hands a run in. [`put_request`] appends it, and promises by the
//! definitions of reading that a script of it asks the request: `specs/Written` says what is written, and of which requests.
//!
//! Stands on `request_words` and `request_reader` for what lines and scripts ask, on `request_model` for requests, on
//! `line_text` for the spelling of names and numbers, and on `go_bench_text` and `lnt_report` for bodies.
#![tactic(auto)]

mod sound;
mod write;
mod write_line;

pub use go_bench_text::PutFault;
pub use request_reader::{Asked, Lines, ReadStop, read_request};
pub use std::alloc::AllocError as NoMemory;
pub use write::put_request;
