//! Which entries touch a series, which series are stale, and what a quiet history is.
//!
//! An entry touches a series where it accepts or retracts a run with a sample of it, or tunes its metric (`specs/Touches`).
//! A known series is stale where its last publication speaks of a version before its last touch, or where it has none
//! (`specs/Stale`). The law functions say how this changes with one entry more.
//!
//! Stands on `history_model` for histories.
#![tactic(auto)]

mod laws;

pub use laws::{stale_law, touch_law};
