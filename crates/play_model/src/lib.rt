//! What scripts that run beside one another are answered: definitions over the journals of the machines, and laws.
//!
//! `specs/Replies.antt` says what one request may be answered, from what was known of its machine's journal on, and
//! `specs/Laws.antt` what holds of all such replies. The law functions do nothing; their contracts are what they are for.
//!
//! Stands on `track_model` for what a request comes to on a history.
#![tactic(auto)]

mod laws;

pub use laws::replies_law;
