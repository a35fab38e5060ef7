//! Texts that share the bytes of the text which they stand in.
ghost use Rattle.std.specs.{Prelude.{◌≡◌, ◌<◌, ◌≤◌, length, slice_range, string_bytes, IfOk}, Str.{IsUtf8, IsCharBoundary}};

use crate::NoMemory;
use std::alloc::Global;
use std::marker::Model;
use std::rc::RcStr;

/// A whole text, which its parts share. Contracts see its bytes.
#[derive(Drop)]
pub(crate) struct Source {
    text: RcStr,
}

impl Model for Source {
    ghost use Rattle.std.specs.{Prelude.{ℕ, List}, Rc.rc_str_bytes};

    ghost Value = { List ℕ };

    ghost view = { λ s. rc_str_bytes s.text };
}

impl Source {
    /// The whole of a text. Linear in the length.
    pub(crate) fn of(alloc: Global, text: &str) -> Result<Source, NoMemory>
        ensures { IfOk result (λ made. made ≡ text.now) }
    {
        Ok(Source {
            text: RcStr::from_str(alloc, text)?,
        })
    }

    /// The text that a string holds. Copies nothing.
    fn from_string(text: String) -> Result<Source, NoMemory>
        ensures { IfOk result (λ made. made ≡ string_bytes text) }
    {
        Ok(Source {
            text: RcStr::from_string(text)?,
        })
    }

    /// The text.
    pub(crate) fn as_str(&self) -> &str
        ensures { result.now ≡ self.now }
    {
        self.text.as_str()
    }

    /// The bytes of the text.
    pub(crate) fn as_bytes(&self) -> &[u8]
        ensures value { result.now ≡ self.now }
        ensures utf8 { IsUtf8 result.now }
    {
        self.text.as_str().as_bytes()
    }

    /// The same text once more. Constant time; takes no memory.
    fn share(&self) -> Result<Source, NoMemory>
        ensures { IfOk result (λ made. made ≡ self.now) }
    {
        Ok(Source {
            text: self.text.clone()?,
        })
    }

    /// What stands between two places. Constant time; takes no memory.
    pub(crate) fn part(&self, start: usize, end: usize) -> Result<SharedText, NoMemory>
        requires order { start ≤ end }
        requires start_boundary { IsCharBoundary self.now start }
        requires end_boundary { IsCharBoundary self.now end }
        ensures { IfOk result (λ part. part ≡ slice_range self.now start end) }
    {
        Ok(SharedText {
            whole: self.share()?,
            start,
            end,
        })
    }
}

/// UTF-8 text of any length, which may share the bytes of a longer text that it stands in. Contracts see its bytes.
///
/// As long as it lives, so do the bytes of the longer text.
#[derive(Drop)]
pub struct SharedText {
    whole: Source,
    start: usize,
    end: usize,
}

impl Model for SharedText {
    ghost use Rattle.std.specs.{Prelude.{ℕ, List, ◌≤◌, slice_range}, Str.IsCharBoundary};

    ghost Value = { List ℕ };

    ghost view = { λ t. slice_range t.whole t.start t.end };

    ghost invariant = { λ t. (t.start ≤ t.end) × IsCharBoundary t.whole t.start
        × IsCharBoundary t.whole t.end };
}

impl SharedText {
    /// A text of its own with these bytes. Linear in the length.
    pub fn of(alloc: Global, text: &str) -> Result<SharedText, NoMemory>
        ensures { IfOk result (λ made. made ≡ text.now) }
    {
        SharedText::all(Source::of(alloc, text)?)
    }

    /// The text that a string holds. Copies nothing.
    pub(crate) fn from_string(text: String) -> Result<SharedText, NoMemory>
        ensures { IfOk result (λ made. made ≡ string_bytes text) }
    {
        SharedText::all(Source::from_string(text)?)
    }

    /// The whole of a text.
    fn all(whole: Source) -> Result<SharedText, NoMemory>
        ensures { IfOk result (λ made. made ≡ whole) }
    {
        let end = whole.as_str().len();
        Ok(SharedText {
            whole,
            start: 0,
            end,
        })
    }

    /// The bytes as text. Takes no memory.
    pub fn as_str(&self) -> &str
        ensures { result.now ≡ self.now }
    {
        &self.whole.as_str()[self.start..self.end]
    }

    /// An equal text, which shares the bytes. Constant time; takes no memory.
    pub fn copy(&self) -> Result<SharedText, NoMemory>
        ensures { IfOk result (λ made. made ≡ self.now) }
    {
        Ok(SharedText {
            whole: self.whole.share()?,
            start: self.start,
            end: self.end,
        })
    }
}
