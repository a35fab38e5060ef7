//! The scripts of a shared run, each with its seat at the room and its files: seated, played, and gone again.
//!
//! A [`Player`] is a script with all that it needs to be answered in a thread of its own, and then how that ended; its
//! [`RoomDesk`] asks each request at the room, under the script's own pass and author. Proved: the passes that players have are
//! split off the room's first pass, one after another, and joined into it again; each request is asked beside others; and a
//! player that was run has played its script (`specs/Players.antt`).
//!
//! Stands on `play_seats` for a script's place at the room, on `play_script` for the answering of a script beside others, on
//! `script_files` for open files, and on `side_by_side` for jobs. What `play_seats` says of seats and passes is named from here
//! too.
#![tactic(auto)]

mod desk;
mod leaving;
mod player;
mod seating;

pub use desk::RoomDesk;
pub use leaving::leave;
pub use play_seats::{Ended, Room, RoomPass, joining_law};
pub use player::Player;
pub use seating::{seat_scripts, split_passes};
pub use std::alloc::AllocError as NoMemory;
