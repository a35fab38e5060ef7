//! A script's place at a room, as definitions: what its pass has seen of each machine, by name; that each request to the
//! room is asked beside others; and what the first pass knows of the passes that are joined into it.
//!
//! `specs/Seats.antt` says what a place is, and what a request there comes to; `proofs/Seats.antt` has the lemmas that a desk at
//! a room gives as its laws. `specs/Joining.antt` speaks of one machine while passes are joined. Stands on `track_room` for
//! what a request to a room comes to, and on `play_script` for posts.
#![tactic(auto)]

mod laws;

pub use laws::joining_law;
pub use play_script::{Beside, OnReply, Stop, play_script};
pub use track_room::{Ended, Room, RoomPass};
