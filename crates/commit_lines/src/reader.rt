//! What is kept of the bytes that were read: the names of the whole lines, and the line that has begun.
ghost use Rattle.std.specs.Prelude.{◌≡◌, ◌+◌, ◌^◌, ◌<◌, ◌≤◌, [], ◌∷◌, length, OnOk, IfOk, IfErr};
ghost use Rattle.line_pieces.specs.Pieces.{OnRefused};
ghost use Rattle.commit_lines.specs.{HasRead.{AddsName, RefusesName, TakesLine}, Reading.Breaks};

use crate::line::{LINE_LIMIT, LineKind, is_skipped, line_kind, may_go};
use indexmap::IndexSet;
use line_pieces::{LineReader, Refusal, Stop};
use line_text::Name;
use std::alloc::Global;
use std::marker::Model;

/// The most commits.
const COMMITS: usize = 65_536;

/// The names of commits, in the order of their lines. Contracts see the list of names.
#[derive(Drop)]
pub struct Commits {
    names: IndexSet<Name>,
}

impl Model for Commits {
    ghost use Rattle.std.specs.Prelude.{ℕ, List};

    ghost Value = { List (List ℕ) };

    ghost view = { λ c. c.names.keys };
}

impl Commits {
    /// The names, in order.
    pub fn as_slice(&self) -> &[Name]
        ensures { result.now ≡ self.now }
    {
        self.names.as_slice()
    }
}

/// Reads names of commits: it keeps the names of the whole lines, and the first bytes of the line that is not yet whole.
#[derive(Drop)]
pub struct Reader {
    alloc: Global,
    names: IndexSet<Name>,
    whole_lines: u64,
    line: Vec<u8>,
}

impl Reader {
    ghost use Rattle.line_pieces.specs.Pieces.{ReadsMore, LastRefused, EndRefused};
    ghost use Rattle.commit_lines.specs.{HasRead.{HasRead, HasNames}, Pieces.reading};

    /// A reader of no bytes.
    pub fn new(alloc: Global) -> Reader
        ensures none { result.whole_lines ≡ 0 }
        ensures read { HasRead [] result }
    {
        Reader {
            alloc,
            names: IndexSet::new(alloc),
            whole_lines: 0,
            line: Vec::new(alloc),
        }
    }

    // Ends the line, which may be the last one and empty.
    fn end_line(&mut self) -> Result<(), Stop>
        requires { self.old.whole_lines < 2 ^ 32 }
        ensures lines { self.new.whole_lines ≤ self.old.whole_lines + 1 }
        ensures ok { OnOk result (ReadsMore reading (10 ∷ []) self.old self.new) }
        ensures err { IfErr result (LastRefused reading self.old) }
    {
        if self.line.len() > LINE_LIMIT {
            self.next_line();
            return Ok(());
        }
        let number = self.number();
        add_line(self.alloc, &mut self.names, number, &self.line)?;
        self.next_line();
        Ok(())
    }

    // Goes on to the next line.
    fn next_line(&mut self)
        requires { self.old.whole_lines < 2 ^ 32 }
        ensures names { self.new.names.keys ≡ self.old.names.keys }
        ensures whole { self.new.whole_lines ≡ self.old.whole_lines + 1 }
        ensures line { self.new.line.items ≡ [] }
    {
        self.whole_lines += 1;
        self.line.clear();
    }

    /// The names of all lines.
    pub fn finish(mut self) -> Result<Commits, Stop>
        requires { self.whole_lines < 2 ^ 32 }
        ensures ok { IfOk result (HasNames self) }
        ensures err { IfErr result (EndRefused reading self) }
    {
        // The last line needs no line feed.
        self.end_line()?;
        let Reader { names, line, .. } = self;
        drop(line);
        Ok(Commits { names })
    }

    // The number of the line that is not yet whole.
    fn number(&self) -> u64
        requires { self.now.whole_lines < 2 ^ 32 }
        ensures { result ≡ self.now.whole_lines + 1 }
    {
        self.whole_lines + 1
    }
}

impl LineReader for Reader {
    ghost use Rattle.commit_lines.specs.Pieces.{reading as of_names};

    ghost reading = { of_names };

    fn take_line(&mut self, part: &[u8]) -> Result<(), Stop> {
        self.extend_line(part)?;
        self.end_line()
    }

    // Takes the next bytes of the line. It is refused behind the most that it may have, unless it is skipped; of a skipped
    // one that is longer, the first bytes are kept.
    fn extend_line(&mut self, part: &[u8]) -> Result<(), Stop> {
        self.line.extend_from_slice(part)?;
        if self.line.len() <= LINE_LIMIT {
            return Ok(());
        }
        if !is_skipped(&self.line) {
            return Err(Stop::Refused(Refusal::Bad, self.number()));
        }
        self.line.truncate(LINE_LIMIT + 1);
        Ok(())
    }

    // Whether the line that has begun may go on; else how it is refused.
    fn may_go_on(&mut self) -> Result<(), Stop> {
        if self.line.len() > LINE_LIMIT {
            return Ok(());
        }
        if may_go(self.alloc, &self.names, &self.line)? {
            return Ok(());
        }
        Err(Stop::Refused(Refusal::Bad, self.number()))
    }
}

// Adds what the line of this number says.
fn add_line(alloc: Global, names: &mut IndexSet<Name>, number: u64, line: &[u8]) -> Result<(), Stop>
    requires { length line.now ≤ 4_096 }
    ensures ok { OnOk result (TakesLine line.now names.old.keys names.new.keys) }
    ensures err { IfErr result
        (OnRefused (λ why k. (k ≡ number) × Breaks why names.old.keys line.now)) }
{
    match line_kind(alloc, line)? {
        LineKind::Skipped => Ok(()),
        LineKind::Named(name) => add(names, number, name),
        LineKind::Bad => Err(Stop::Refused(Refusal::Bad, number)),
    }
}

// Adds the name that the line of this number says behind the others.
fn add(names: &mut IndexSet<Name>, number: u64, name: Name) -> Result<(), Stop>
    ensures ok { OnOk result (AddsName name names.old.keys names.new.keys) }
    ensures err { IfErr result
        (OnRefused (λ why k. (k ≡ number) × RefusesName name names.old.keys why)) }
{
    if names.contains(&name) {
        return Err(Stop::Refused(Refusal::Bad, number));
    }
    if names.len() >= COMMITS {
        return Err(Stop::Refused(Refusal::Full, number));
    }
    if let Err(_) = names.insert(name) {
        return Err(Stop::NoMemory);
    }
    Ok(())
}
