//! A shared run: when the journals of the machines fit the scripts, the transcripts and the workers, as definitions, and laws.
//!
//! A shared run fits its journals (`specs/Fits.antt`): these are legal histories that go on from what was kept
//! (`specs/Journals.antt`); each script has its part in them (`specs/Scripts.antt`), by replies that others may have come
//! between (`play_model`); each worker has its own (`specs/Workers.antt`), and there is nothing else in them. What the
//! workers leave is said in `specs/Quiet.antt`.
//!
//! How the parts come together: a pass of the machines' locks sees its script's part (`specs/Passes.antt`); joined into a
//! whole first pass these are the parts in the journals (`specs/Whole.antt`), and with what main adds behind them they fit
//! (`specs/Ends.antt`). The law function does nothing; its contract is what it is for.
//!
//! Stands on `play_model` for replies, on `request_reader` and `reply_text` for the bytes of scripts and transcripts, on
//! `track_outside` for what a runner was asked, and on `history_lock` for marks.
#![tactic(auto)]

mod laws;

pub use laws::parts_law;
