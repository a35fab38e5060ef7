//! What the text of a reply beside others tells of it: laws, and nothing that runs.
//!
//! A reply's text begins with the number of entries that it names, and its next byte tells whether the request added one of
//! them (`specs/Kinds.antt`). By that, by the journal and by the text there is one reply at most that it may be
//! (`specs/Laws.antt`). The law functions do nothing; their contracts are what they are for.
//!
//! Stands on `play_model` for replies beside others, and on `reply_text` for their texts.
#![tactic(auto)]

mod laws;

pub use laws::{kinds_law, one_reply_law, texts_law};
