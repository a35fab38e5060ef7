//! The scripts of a shared run and their transcripts, as files: opened in order, and closed again.
//!
//! Proved: each script is opened and its transcript created once, in order, up to the first call that fails; what is open
//! then; and what closing leaves: each transcript's name has what it took, and a count of the files rises for each input or
//! output that had failed. `specs/Opening.antt` and `specs/Closing.antt` have the definitions.
//!
//! Stands on `track_outside`, and on `command_words` for the names of transcripts.
#![tactic(auto)]

mod close;
mod open;

pub use close::close_scripts;
pub use open::{OpenFault, OpenScript, open_scripts};
