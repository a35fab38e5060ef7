//! Inputs of lines that are read in pieces.
//!
//! [`read_lines`] gives the lines of an input to a [`LineReader`], which says what a line must be and keeps what it gives.
//! Proved of it: the reader has read all bytes; or reading stopped, and why. An input has at most 2^30 bytes. A stop has its
//! exact cause in the bytes, where the input tells them: a line is refused, or there are more bytes; and a fault comes only
//! where what the input gave may go on.
//!
//! `specs/Stops.antt` says when reading stops, by what lines must be (`Rules`), and `specs/Pieces.antt` what a reader has of
//! what an input gave, and what a piece more makes of both; a crate names its kind of reader by a `Reading`. The lemmas are
//! of what an input gave (`proofs/Given.antt`) and of bytes and lines (`proofs/Fronts.antt`).
//!
//! Stands on the sources of `track_outside`, and on `memchr`.
#![tactic(auto)]

mod input;
mod line_reader;
mod stop;

pub use input::read_lines;
pub use line_reader::LineReader;
pub use stop::{Refusal, Stop};
