//! What the script of a number asks, and that it is whole.
//!
//! `series_gen` writes the script of a number; here it is read. [`script_law`] says that it asks the requests of
//! `specs/Requests.antt`, one after another, and ends well, however it is read: so the script of a number is never cut off,
//! nor too long. [`accepted_law`] says that a session without machines refuses none of these requests
//! (`specs/Accepted.antt`). The laws do nothing: their contracts are what they are for.
//!
//! Stands on `series_gen` for the script, on `request_words` and `request_reader` for the reading of lines and scripts, on
//! `request_text` for the words of lines that are read back, and on `script_session`, which says that bytes are one
//! script and how requests are answered; on `line_text` for words, names and numbers, on `go_bench_text` for the bodies, and
//! on `track_model` and `history_model` for what a request comes to on a history.
#![tactic(auto)]

mod laws;

pub use laws::{accepted_law, script_law};
pub use script_session::{Session, Stop, Trial, answer_counted, count_law, output_law, part_law};
