//! One script of a shared run: answered request by request, each reply written before the next request is read.
//!
//! [`play_script`] answers the script at a desk whose requests are asked [`Beside`] others, and writes each reply by itself;
//! with the pace [`OnReply`] it passes a gate each time that one was written. Proved of it: the requests and replies are the script's part in what its pass has seen, and its
//! transcript has them, up to the last one at most.
//!
//! `specs/Posts.antt` says what such a desk is, and `specs/Played.antt` what it comes to.
//!
//! Stands on `script_loop` for the answering of scripts, and on `play_fits` for shared runs.
#![tactic(auto)]

mod beside;
mod on_reply;
mod play;

pub use beside::Beside;
pub use on_reply::OnReply;
pub use play::play_script;
pub use script_loop::{Desk, NoMemory, Stop};
