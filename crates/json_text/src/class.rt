//! Classes of bytes, of which runs are read at once.
ghost use Rattle.std.specs.Prelude.{◌≡◌, ℕ, Bool};
ghost use Rattle.json_text.specs.Classes.{is_blank, is_plain};

use crate::lexeme::{is_blank, is_plain};

/// A class of bytes, as a test.
pub(crate) trait Class {
    ghost test: { ℕ → Bool };

    /// Whether a byte is of it.
    fn has(byte: u8) -> bool
        ensures { result ≡ test byte };
}

/// White space.
pub(crate) struct Blank;

impl Class for Blank {
    ghost test = { is_blank };

    fn has(byte: u8) -> bool {
        is_blank(byte)
    }
}

/// What stands for itself in a text.
pub(crate) struct Plain;

impl Class for Plain {
    ghost test = { is_plain };

    fn has(byte: u8) -> bool {
        is_plain(byte)
    }
}
