//! The machines that running scripts and workers share, each under a lock of its own.
//!
//! A [`Room`] has the machines, and whoever works in it holds a [`RoomPass`], which has seen so much of each machine's
//! history. A request is answered as some moment's history gives it: what is seen then goes on from what was seen before by
//! entries of others, and by the entry that the request adds, if it adds one, which bears the pass's mark. A segmentation is
//! computed outside the lock, on a version between what the pass had seen and what it finds.
//!
//! Promised of one pass, whatever the others do (`specs/Sights.antt` says what a pass knows, `specs/Asked.antt` what a
//! request is answered, `specs/Taking.antt` what workers take and hand in). Passes are split from the first one and joined
//! into it; when all were joined, [`Room::close`] gives the machines with exactly what that pass has seen. Not promised: that a
//! pass is served, or in what order.
//!
//! Stands on `history_lock` for the locks, on `track_state` and `track_series` for what a machine answers and what is taken
//! of it, and on `play_model` for what a reply beside others is.
#![tactic(auto)]

mod act;
mod asking;
mod claim;
mod closing;
mod ended;
mod guarded;
mod laws;
mod machine;
mod pace;
mod passes;
mod place;
mod room;
mod states;
mod take;
mod taking;
mod visits;
mod work;

pub use claim::SeriesClaim;
pub use closing::CloseFault;
pub use ended::Ended;
pub use laws::whole_law;
pub use pace::{AtGate, Pace};
pub use room::{Room, RoomPass};
pub use states::{leave_each, unclaimed};
pub use std::alloc::AllocError as NoMemory;
pub use track_state::{Question, Snapshot, TrackState, compute_apart, open_question};
