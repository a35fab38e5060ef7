//! The requests of a script, read from bytes in pieces.
//!
//! A script is pieces one after another: a line, and as many bytes behind it as it counts. A line asks nothing where it is
//! skipped, else one thing: a request, or the first refusal of reading that it meets. `specs/` has the definitions, from
//! `Scripts` to `Unread`, `Next` and `Reading`. [`read_request`] reads the next request of a source in pieces, with the exact
//! cause of each stop.
//!
//! Stands on `request_words` for what a line asks with its body, on `request_model` for requests, on `line_text` for words
//! and shared names, and on `track_outside` for sources.
#![tactic(auto)]

mod asked;
mod body_read;
mod last;
mod laws;
mod line;
mod lines;
mod need;
mod pass;
mod read;
mod stop;
mod whole;

pub use asked::Asked;
pub use laws::{pieces_law, reading_law};
pub use lines::Lines;
pub use read::read_request;
pub use std::alloc::AllocError as NoMemory;
pub use stop::ReadStop;
