//! The lines of a text, one after another.
ghost use Rattle.std.specs.Prelude.{◌≡◌, ◌≢◌, ◌↔◌, ◌+◌, ◌<◌, ◌^◌, ◌∷◌, ◌++◌, [], All, IfSome, IfNone, IsTrue, length};

use memchr::memchr;
use std::marker::Model;

/// A text, of which so many lines were read.
#[derive(Drop)]
pub struct Lines<'a> {
    rest: &'a [u8],
    count: u64,
}

impl<'a> Model for Lines<'a> {
    ghost use Rattle.std.specs.Prelude.{◌+◌, ◌<◌, ◌^◌, length};
    ghost use Rattle.journal_lines.specs.Unread.{Unread};

    ghost Value = { Unread };

    ghost view = { λ l. record { rest = l.rest.now; count = l.count } };

    ghost invariant = { λ l. l.count + length l.rest.now < 2 ^ 64 };
}

impl<'a> Lines<'a> {
    /// A text of which nothing was read.
    pub fn new(text: &'a [u8]) -> Lines<'a>
        ensures { result ≡ record { rest = text.now; count = 0 } }
    {
        Lines {
            rest: text,
            count: 0,
        }
    }

    /// How many lines were read.
    pub fn count(&self) -> u64
        ensures is { result ≡ self.now.count }
        ensures few { result + length self.now.rest < 2 ^ 64 }
    {
        let _ = self.rest;
        self.count
    }

    /// Whether nothing is left.
    pub fn is_empty(&self) -> bool
        ensures { IsTrue result ↔ (self.now.rest ≡ []) }
    {
        self.rest.is_empty()
    }

    /// The next line, without its line feed, and what stands behind it; none exactly where no line feed is left.
    pub fn next(&self) -> Option<Line<'a>>
        ensures some { IfSome result (λ next.
            self.now.rest ≡ next.line.now ++ 10 ∷ next.rest.now) }
        ensures first { IfSome result (λ next. All (λ b. b ≢ 10) next.line.now) }
        ensures none { IfNone result (All (λ b. b ≢ 10) self.now.rest) }
    {
        match memchr(b'\n', self.rest) {
            Some(end) => Some(Line {
                line: &self.rest[..end],
                rest: &self.rest[end + 1..],
            }),
            None => None,
        }
    }

    /// A line was read.
    pub fn pass(&mut self, line: Line<'a>)
        requires { self.old.rest ≡ line.line.now ++ 10 ∷ line.rest.now }
        ensures { self.new ≡ record { rest = line.entry.rest.now; count = self.old.count + 1 } }
    {
        self.rest = line.rest;
        self.count += 1;
    }
}

/// A line without its line feed, and what stands behind it.
#[derive(Drop)]
pub struct Line<'a> {
    /// The line.
    pub line: &'a [u8],
    /// What stands behind it.
    pub rest: &'a [u8],
}
