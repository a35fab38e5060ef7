//! The words of a request line, one after another.
ghost use Rattle.std.specs.Prelude.{◌≡◌, ◌≢◌, ℕ, ◌^◌, ◌<◌, List, [], ◌∷◌, decimal, IsTrue, ◌↔◌, IfSome, IfNone};
ghost use Rattle.line_text.specs.Lines.{words_of};

use line_text::{next_word, read_u64};
use std::marker::Model;

// The greatest status.
const STATUS_LIMIT: u64 = 255;

// The words of a line that are left. Contracts see the list.
#[derive(Drop)]
pub(crate) struct Words<'a> {
    line: &'a [u8],
    at: usize,
}

impl<'a> Model for Words<'a> {
    ghost use Rattle.std.specs.Prelude.{ℕ, ◌≤◌, List, length, drop};
    ghost use Rattle.line_text.specs.Lines.{words_of};

    ghost Value = { List (List ℕ) };

    ghost view = { λ w. words_of (drop w.at w.line.now) };

    ghost invariant = { λ w. w.at ≤ length w.line.now };
}

impl<'a> Words<'a> {
    // All words of a line.
    pub(crate) fn of(line: &'a [u8]) -> Words<'a>
        ensures { result ≡ words_of line.now }
    {
        Words { line, at: 0 }
    }

    // The next word.
    pub(crate) fn next(&mut self) -> Option<&'a [u8]>
        ensures some { IfSome result (λ word. self.old ≡ word.now ∷ self.new) }
        ensures none { IfNone result (self.old ≡ []) }
    {
        let (from, to) = next_word(self.line, self.at)?;
        self.at = to;
        Some(&self.line[from..to])
    }

    // Whether no word is left.
    pub(crate) fn are_over(&self) -> bool
        ensures { IsTrue result ↔ (self.now ≡ []) }
    {
        next_word(self.line, self.at).is_none()
    }

    // The one word that is left.
    pub(crate) fn one(&mut self) -> Option<&'a [u8]>
        ensures some { IfSome result (λ word. self.old ≡ word.now ∷ []) }
        ensures none { IfNone result ((word : List ℕ) → self.old ≢ word ∷ []) }
    {
        let word = self.next()?;
        if self.are_over() { Some(word) } else { None }
    }

    // The two words that are left.
    pub(crate) fn two(&mut self) -> Option<(&'a [u8], &'a [u8])>
        ensures some { IfSome result (λ words. self.old ≡ words.0.now ∷ words.1.now ∷ []) }
        ensures none { IfNone result
            ((first second : List ℕ) → self.old ≢ first ∷ second ∷ []) }
    {
        let first = self.next()?;
        let second = self.one()?;
        Some((first, second))
    }

    // The three words that are left.
    pub(crate) fn three(&mut self) -> Option<(&'a [u8], &'a [u8], &'a [u8])>
        ensures some { IfSome result
            (λ words. self.old ≡ words.0.now ∷ words.1.now ∷ words.2.now ∷ []) }
        ensures none { IfNone result
            ((first second third : List ℕ) → self.old ≢ first ∷ second ∷ third ∷ []) }
    {
        let first = self.next()?;
        let (second, third) = self.two()?;
        Some((first, second, third))
    }

    // The number that is left.
    pub(crate) fn number(&mut self) -> Option<u64>
        ensures some { IfSome result (λ n. self.old ≡ decimal n ∷ []) }
        ensures none { IfNone result ((n : ℕ) → n < 2 ^ 64 → self.old ≢ decimal n ∷ []) }
    {
        read_u64(self.one()?)
    }

    // The status that is left.
    pub(crate) fn status(&mut self) -> Option<u8>
        ensures some { IfSome result (λ n. self.old ≡ decimal n ∷ []) }
        ensures none { IfNone result ((n : ℕ) → n < 2 ^ 8 → self.old ≢ decimal n ∷ []) }
    {
        let status = self.number()?;
        if status > STATUS_LIMIT {
            return None;
        }
        Some(status as u8)
    }
}
