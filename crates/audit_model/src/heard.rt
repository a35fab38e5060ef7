//! A script with what it was told.

use line_text::Items;

/// Bytes, seen as a list.
pub type Bytes = Items<u8>;

/// A script with its transcript.
#[derive(Drop)]
pub struct Heard {
    /// The script.
    pub script: Bytes,
    /// What it was told.
    pub transcript: Bytes,
}
