//! What a script is answered: a fold of its requests over whatever answers a request, the text of the replies, why
//! it ends, and how many steps it took.
//!
//! [`answer_counted`] reads the requests of an input one after another, has each answered by steps that are counted
//! (`script_desk`), and writes the replies.
//! Proved of it, over whatever answers: some items of the script were read and answered, and the output took their text: all
//! of the script's at its end, all of the requests before the stop where the script is cut off, is too long or can't
//! be read, and a first part where writing fails or memory is wanting; each stop has its exact cause in the bytes.
//! [`output_law`] says that a script has one output and one ending, and that what answers its first requests begins
//! that output; [`trial_law`] says it of a trial, and [`part_law`] that a trial tells exactly the part of the replies that
//! is about segmentations. [`count_law`] says how many steps the answers took.
//!
//! `specs/Part.antt` says what a part of an output is, `specs/Counts.antt` how many steps the answers of a script took, and
//! `specs/Laws.antt` the laws; what an output is `script_loop` says.
//!
//! Stands on `script_loop` for the loop over the requests of an input, on `script_desk` for what answers one, on
//! `request_reader` and `reply_text` for the texts of requests and replies, and on `track_outside` for sources and sinks.
#![tactic(auto)]

mod counted;
mod laws;

pub use counted::answer_counted;
pub use laws::{count_law, output_law, part_law, trial_law};
pub use script_desk::{Session, Trial};
pub use script_loop::Stop;
pub use std::alloc::AllocError as NoMemory;
