//! What was read of an input and not used yet.
ghost use Rattle.std.specs.Prelude.{◌≡◌, ◌+◌, ◌≤◌, ◌<◌, ◌^◌, ◌≢◌, ℕ, List, true, false, All, SomeIndex, IsTrue, take, drop, length, slice_index, slice_range, IfOk, IfErr, OnErr};
ghost use Rattle.request_words.specs.{Heads.IsHead, Items.Asks};
ghost use Rattle.request_reader.specs.{Filling.{Fills, StopsFillingFrom, IsReadOnto, StopsReadingOnto, GaveAtMost}, LastLines.HasEnded, Next.GaveFewFrom, Unread.nothing_read};

use crate::NoMemory;
use crate::stop::ReadStop;
use line_text::Names;
use memchr::memchr;
use request_model::{Refusal, Request};
use request_words::{Head, item_of, read_head};
use std::alloc::Global;
use std::marker::Model;
use track_outside::Source;

// The most bytes of an input that are read.
const INPUT_LIMIT: u64 = 0x4000_0000;

// How many names are kept, so that they are shared where they come again.
const NAMES: usize = 4_096;

// How many bytes are read at once.
const PIECE: usize = 0x1_0000;

/// What was read of an input and not used yet.
///
/// Contracts see the bytes, how many bytes of the input came before them, whether the last of the input was used, and
/// whether reading has stopped. One value goes with one source: what is left to be read are its bytes, and behind them
/// those that the source has left.
#[derive(Drop)]
pub struct Lines {
    bytes: Vec<u8>,
    start: usize,
    before: u64,
    ended: bool,
    stopped: bool,
    // The names of machines, tests and units that have come.
    names: Names,
}

impl Model for Lines {
    ghost use Rattle.std.specs.Prelude.{◌≡◌, ◌+◌, ◌-◌, ◌≤◌, ◌^◌, length, drop};
    ghost use Rattle.request_reader.specs.Unread.{Unread};

    ghost Value = { Unread };

    ghost view = { λ l. record {
      kept = drop l.start l.bytes.items;
      before = l.before;
      ended = l.ended;
      stopped = l.stopped;
    } };

    ghost invariant = { λ l. (l.start ≤ length l.bytes.items)
        × (l.before + (length l.bytes.items - l.start) ≤ 2 ^ 30) };
}

impl Lines {
    /// Nothing was read.
    ///
    /// Takes no memory before the first bytes are read.
    pub fn new(alloc: Global) -> Result<Lines, NoMemory>
        ensures { IfOk result (λ made. made ≡ nothing_read) }
    {
        Ok(Lines {
            bytes: Vec::new(alloc),
            start: 0,
            before: 0,
            ended: false,
            stopped: false,
            names: Names::new(alloc, NAMES),
        })
    }

    /// Whether the last of the input was used, so that nothing more is asked.
    pub fn has_ended(&self) -> bool
        ensures { result ≡ self.now.ended }
    {
        self.ended
    }

    /// Whether a whole line is kept: else the next request can't be read without asking the source. Linear in the line.
    pub fn holds_line(&self) -> bool
        ensures yes { IsTrue result
            → SomeIndex self.now.kept (λ i. slice_index self.now.kept i ≡ 10) }
        ensures no { result ≡ false → All (λ b. b ≢ 10) self.now.kept }
    {
        memchr(b'\n', self.kept()).is_some()
    }

    // Says what the type keeps. Does nothing: its contract is what it is for.
    pub(crate) fn limits(&self)
        ensures { self.now.before + length self.now.kept ≤ 2 ^ 30 }
    {
        let _ = &self.bytes;
    }

    // The bytes that are kept.
    pub(crate) fn kept(&self) -> &[u8]
        ensures same { result.now ≡ self.now.kept }
        ensures within { self.now.before + length result.now ≤ 2 ^ 30 }
    {
        behind(&self.bytes, self.start)
    }

    // How many bytes came before them.
    pub(crate) fn before(&self) -> u64
        ensures { result ≡ self.now.before }
    {
        self.before
    }

    // What a line asks that is the first of the bytes.
    pub(crate) fn head(&mut self, alloc: Global, len: usize) -> Result<Head, NoMemory>
        requires { len ≤ length self.old.kept }
        ensures same { self.new ≡ self.old }
        ensures head { IfOk result (IsHead (take len self.old.kept)) }
    {
        read_head(
            alloc,
            &mut self.names,
            &behind(&self.bytes, self.start)[..len],
        )
    }

    // What the line of a head asks with a body that stands between these places of the bytes.
    pub(crate) fn item(
        &mut self,
        alloc: Global,
        head: Head,
        from: usize,
        to: usize,
    ) -> Result<Result<Request, Refusal>, NoMemory>
        requires order { from ≤ to }
        requires kept { to ≤ length self.old.kept }
        ensures same { self.new ≡ self.old }
        ensures item { IfOk result (λ item. (line : List ℕ) → IsHead line head
            → Asks line (slice_range self.old.kept from to) item) }
    {
        let body = &behind(&self.bytes, self.start)[from..to];
        item_of(alloc, &mut self.names, head, body)
    }

    // The first of the bytes are used.
    pub(crate) fn use_up(&mut self, count: usize)
        requires { count ≤ length self.old.kept }
        ensures kept { self.new.kept ≡ drop count self.old.kept }
        ensures before { self.new.before ≡ self.old.before + count }
        ensures ended { self.new.ended ≡ self.old.ended }
        ensures stopped { self.new.stopped ≡ self.old.stopped }
    {
        self.start += count;
        self.before += count as u64;
    }

    // All bytes are used, and they were the last of the input.
    pub(crate) fn end(&mut self)
        ensures { HasEnded self.old self.new }
    {
        self.use_up(self.kept().len());
        self.ended = true;
    }

    // Reading has stopped.
    pub(crate) fn stop(&mut self)
        ensures { self.new.stopped ≡ true }
    {
        self.stopped = true;
    }

    // Reads more bytes, and answers how many: none at the end.
    pub(crate) fn fill<S: Source>(
        &mut self,
        alloc: Global,
        source: &mut S,
    ) -> Result<usize, ReadStop>
        ensures ok { IfOk result (Fills self.old self.new (S.left source.old) (S.left source.new)) }
        ensures err { IfErr result (StopsFillingFrom S.Source self.old source.old source.new) }
        ensures few { OnErr result (GaveFewFrom S.Source self.old source.old source.new) }
        ensures counts { S.faults source.old ≤ S.faults source.new }
    {
        let room = INPUT_LIMIT - self.before - self.kept().len() as u64;
        if room == 0 {
            return self.look_past(alloc, source);
        }
        self.forget_used();
        let want = room.min(PIECE as u64) as usize;
        self.fill_at_most(source, want)
    }

    // Reads so many bytes at most.
    fn fill_at_most<S: Source>(&mut self, source: &mut S, want: usize) -> Result<usize, ReadStop>
        requires some { 0 < want }
        requires room { self.old.before + length self.old.kept + want ≤ 2 ^ 30 }
        ensures ok { IfOk result (Fills self.old self.new (S.left source.old) (S.left source.new)) }
        ensures err { IfErr result (StopsFillingFrom S.Source self.old source.old source.new) }
        ensures few { OnErr result (GaveFewFrom S.Source self.old source.old source.new) }
        ensures counts { S.faults source.old ≤ S.faults source.new }
    {
        read_onto(source, want, &mut self.bytes)
    }

    // Looks whether a byte comes past the most that are read.
    fn look_past<S: Source>(&mut self, alloc: Global, source: &mut S) -> Result<usize, ReadStop>
        requires { self.old.before + length self.old.kept ≡ 2 ^ 30 }
        ensures ok { IfOk result (Fills self.old self.new (S.left source.old) (S.left source.new)) }
        ensures err { IfErr result (StopsFillingFrom S.Source self.old source.old source.new) }
        ensures few { OnErr result (GaveFewFrom S.Source self.old source.old source.new) }
        ensures counts { S.faults source.old ≤ S.faults source.new }
    {
        let mut piece = vec![in alloc; 0u8; 1]?;
        let Ok(count) = source.read(&mut piece) else {
            return Err(ReadStop::ReadFault);
        };
        if count == 0 {
            return Ok(0);
        }
        Err(ReadStop::InputTooLong)
    }

    // Lets the bytes go that were used.
    fn forget_used(&mut self)
        ensures { self.new ≡ self.old }
    {
        if self.start == 0 {
            return;
        }
        let rest = self.bytes.len() - self.start;
        self.bytes.copy_within(self.start.., 0);
        self.bytes.truncate(rest);
        self.start = 0;
    }
}

// The bytes from a place on.
fn behind(bytes: &[u8], start: usize) -> &[u8]
    requires { start ≤ length bytes.now }
    ensures { result.now ≡ drop start bytes.now }
{
    &bytes[start..]
}

// Reads bytes behind others, so many at most, and answers how many: none at the end.
fn read_onto<S: Source>(source: &mut S, want: usize, bytes: &mut Vec<u8>) -> Result<usize, ReadStop>
    requires { 0 < want }
    ensures ok { IfOk result
        (IsReadOnto bytes.old.items bytes.new.items (S.left source.old) (S.left source.new) want) }
    ensures err { IfErr result (StopsReadingOnto (S.left source.old) (S.left source.new)
        (S.faults source.old) (S.faults source.new)) }
    ensures lost { OnErr result (GaveAtMost want (S.left source.old) (S.left source.new)) }
    ensures counts { S.faults source.old ≤ S.faults source.new }
    ensures kept { length bytes.old.items ≤ length bytes.new.items }
    ensures few { length bytes.new.items ≤ length bytes.old.items + want }
{
    bytes.reserve(want)?;
    let old = bytes.len();
    bytes.resize(old + want, 0u8)?;
    let Ok(count) = source.read(&mut bytes[old..]) else {
        bytes.truncate(old);
        return Err(ReadStop::ReadFault);
    };
    bytes.truncate(old + count);
    Ok(count)
}
