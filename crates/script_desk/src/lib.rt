//! What answers the requests of a script, and tells the replies.
//!
//! A [`CountingDesk`] answers requests one by one, tells the replies, and counts the steps that they take; a [`Session`] is
//! that of one thread, with the machines that its scripts declare, and a [`Trial`] is one that tells what it replies about
//! segmentations alone.
//! Proved of both: each request is answered on the machine that it names, as that machine's history gives it; a machine is
//! declared where there is room, and a request about an unknown one is refused; a segmentation takes as many steps as its
//! answer says were redone, and no other request takes any. [`machines_law`] and [`goes_on_law`] say
//! what a session leaves of the machines that it began with, [`Session::histories_law`] that each has a legal history, and
//! [`Session::comes_back_law`] that what a store keeps of these comes back.
//!
//! `specs/Sessions.antt` says what one request makes of the machines, `specs/Counting.antt` what it makes of the count, and
//! `specs/Growth.antt` the laws.
//!
//! Stands on `script_loop` for how items are answered, on `request_model` and `request_words` for requests and items, on `track_step`, `machine_state` and `track_model`
//! for a machine's answers, and on `keep_rows`, which finds a machine among others.
#![tactic(auto)]

mod counting;
mod laws;
mod machines;
mod session;
mod trial;

pub use counting::CountingDesk;
pub use laws::{goes_on_law, machines_law};
pub use session::Session;
pub use std::alloc::AllocError as NoMemory;
pub use trial::Trial;
