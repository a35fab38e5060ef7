//! Cut lines: from the bytes of an input to the points of a series.
//!
//! A cut line says an order and a value. `read_points` reads an input to its end and answers the points that its cut
//! lines give, or why it stopped: the first line that is refused and why, more bytes than an input may have, a fault of
//! the input, or want of memory. Proved of it: the points are those of all lines; a stop has its exact cause in the bytes,
//! where the input tells them, and a fault comes only where the lines that it gave are accepted and the one that had begun
//! may go on. `one_stop_law` says that no bytes have two causes, nor points and a cause.
//!
//! `specs/Lines.antt` says what a cut line is, `specs/Points.antt` what positions the lines give, `specs/Reading.antt`
//! which line is the first that is refused, and `specs/Stops.antt` when reading stops. What a reader keeps
//! (`specs/HasRead.antt`, `LineKinds.antt`, `Adding.antt`) no public contract cites.
//!
//! It stands on the pieces of `line_pieces`, the sources of `track_outside`, the lines and numbers of `line_text`, and the
//! points of `segment_cost`.
#![tactic(auto)]

mod cut_line;
mod input;
mod points;
mod reader;

pub use input::{one_stop_law, read_points, read_points_within};
pub use line_pieces::{Refusal, Stop};
