//! A script, answered by whatever answers requests: from the bytes in to the bytes out.
//!
//! [`answer_script`] reads the requests of an input one after another, has each answered by a [`Desk`], and writes the
//! replies; [`answer_paced`] does so at a [`Pace`], which says when they are handed out.
//! Proved of both, over any desk: some items of the script were read and answered, and the output took their text: all
//! of the script's at its end, all of the requests before the stop where the script is cut off, is too long or can't
//! be read, and a first part where writing fails or memory is wanting; each stop has its exact cause in the bytes. Where each
//! reply is handed out by itself, the output took all of them but a part of the last one.
//!
//! `specs/Folds.antt` says what items one after another are answered, `specs/Outputs.antt` what the output of a script is,
//! `specs/Endings.antt` how its answering ends, and `specs/Paced.antt` what it comes to at a pace. What stands between two
//! requests (`specs/Turns.antt`) no public contract cites.
//!
//! Stands on `request_reader` and `reply_text` for the texts of requests and replies, and on `track_outside` for sources and
//! sinks.
#![tactic(auto)]

mod desk;
mod pace;
mod replies;
mod script;
mod stop;

pub use desk::Desk;
pub use pace::{Pace, Together};
pub use script::{answer_paced, answer_script};
pub use std::alloc::AllocError as NoMemory;
pub use stop::Stop;
