//! Bisection of a list of commits by rounds, each of which asks for tests of several places at once.
//!
//! A [`Wide`] asks in each round for up to k places that cut what is open into parts of like length, and passes over
//! places whose test can say nothing. A test that can't be had, or whose status is 128 or more, ends it. Places count
//! from 0; the first is stated good and the last one bad.
//!
//! Promised: after any rounds that were taken the search stands where the definition puts it; low and high are ends of
//! the list or were answered so; the open places are those between them that no round answered 125; what is open falls
//! to a (k + 1)-th in each round without such an answer; what is found has none but such places between its ends.
//!
//! Stands on `line_text`, for lists of numbers.
#![tactic(auto)]

mod laws;
mod outcome;
mod said;
mod wide;

pub use laws::{asked_law, bound_law, ends_law, fewer_law, found_law, half_way_law, open_law};
pub use line_text::NoMemory;
pub use outcome::{WideAnswered, WideFault, WideOutcome};
pub use said::Said;
pub use wide::Wide;
