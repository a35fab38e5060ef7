//! Names of commits: from the bytes of an input to the names that its lines say.
//!
//! A line says one name, or is skipped: it has no word, or begins with `#`. `read_commits` reads an input to its end and
//! answers the names in order, or why it stopped: the first line that is refused and why, more bytes than an input may
//! have, a fault of the input, or want of memory. Proved of it: the names are those of all lines, no two equal; a stop has
//! its exact cause in the bytes, where the input tells them, and a fault comes only where the lines that it gave are
//! accepted and the one that had begun may go on. `one_stop_law` says that no bytes have two causes, nor names and a cause.
//!
//! `specs/Lines.antt` says what a line says, `specs/Reading.antt` which line is the first that is refused, and
//! `specs/Stops.antt` when reading stops. What a reader keeps (`specs/HasRead.antt`, `Pieces.antt`) and the ends that are
//! tried behind a line that has begun (`Ends.antt`) no public contract cites.
//!
//! It stands on the pieces of `line_pieces`, the sources of `track_outside`, the lines and names of `line_text`, and on
//! `indexmap`.
#![tactic(auto)]

mod input;
mod line;
mod reader;
mod tries;

pub use input::{one_stop_law, read_commits};
pub use line_pieces::{Refusal, Stop};
pub use reader::Commits;
