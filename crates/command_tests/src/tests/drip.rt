//! Scripts that end, come and fail at each byte.
ghost use Rattle.std.specs.Prelude.{None};

use crate::tests::run::comes_to;
use std::alloc::Global;
use track_outside::{Failed, MemSink, MemSource, NoMemory, Source};
use tracker_top::Status;

// A source that gives one byte a call. It tells contracts nothing of its bytes.
#[derive(Drop)]
struct Drip {
    source: MemSource,
    calls: u64,
}

impl Source for Drip {
    ghost left = { λ _. None };

    ghost faults = { λ s. s.source.faults };

    fn read(&mut self, buf: &mut [u8]) -> Result<usize, Failed> {
        self.calls = self.calls.saturating_add(1);
        self.source.read(&mut buf[..1])
    }
}

// A source of the script, of which the calls with these numbers fail.
fn drip_of(alloc: Global, script: &[u8], fails: &[u64]) -> Result<Drip, NoMemory> {
    Ok(Drip {
        source: MemSource::new(alloc, script, fails)?,
        calls: 0,
    })
}

// A script in parts, each a request with its reply, and the script of all parts.
struct Walk<'a> {
    parts: &'a [(&'a str, &'a str)],
    script: &'a [u8],
}

// Requests of each kind of body, refused ones, and lines that ask nothing.
const MIXED: Walk<'static> = Walk {
    parts: &[
        ("machine m1\n", "@0 machine m1\n"),
        ("commit m1 10 a\n", "@1 commit 10 a\n"),
        ("# a note\n\n", ""),
        (
            "submit go m1 a r1 20\nBenchmarkX 1 0 B/op\n",
            "@2 accepted r1 samples 1 ignored 0\n",
        ),
        ("retract m1 r1\n", "@3 retracted r1\n"),
        ("submit lnt m1 r2 2\n[]", "@0 E08 NotReport 1 .\n"),
        ("runs m1\n", "@3 runs lines 1\nr1 a 1 retracted\n"),
    ],
    script: b"machine m1\ncommit m1 10 a\n# a note\n\nsubmit go m1 a r1 20\nBenchmarkX 1 0 B/op\nretract m1 r1\nsubmit lnt m1 r2 2\n[]runs m1\n",
};

// The worked script: a series that is segmented, goes on, and is segmented again.
const WORKED: Walk<'static> = Walk {
    parts: &[
        ("machine m1\n", "@0 machine m1\n"),
        ("commit m1 10 a\n", "@1 commit 10 a\n"),
        ("commit m1 20 b\n", "@2 commit 20 b\n"),
        ("commit m1 30 c\n", "@3 commit 30 c\n"),
        ("commit m1 40 d\n", "@4 commit 40 d\n"),
        ("tune m1 B/op 50\n", "@5 tuned B/op 50\n"),
        (
            "submit go m1 a r1 20\nBenchmarkX 1 0 B/op\n",
            "@6 accepted r1 samples 1 ignored 0\n",
        ),
        (
            "submit go m1 b r2 20\nBenchmarkX 1 0 B/op\n",
            "@7 accepted r2 samples 1 ignored 0\n",
        ),
        (
            "submit go m1 d r4 21\nBenchmarkX 1 10 B/op\n",
            "@8 accepted r4 samples 1 ignored 0\n",
        ),
        (
            "segment m1 X B/op\n",
            "@9 segmented version 8 base 0 points 3 cuts 1 redone 3 total 50\n",
        ),
        (
            "submit go m1 c r3 21\nBenchmarkX 1 10 B/op\n",
            "@10 accepted r3 samples 1 ignored 0\n",
        ),
        (
            "segment m1 X B/op\n",
            "@11 segmented version 10 base 8 points 4 cuts 1 redone 2 total 50\n",
        ),
        (
            "changes m1 X B/op\n",
            "@11 changes version 10 lines 1\nb c 0 10 regression\n",
        ),
    ],
    script: b"machine m1\ncommit m1 10 a\ncommit m1 20 b\ncommit m1 30 c\ncommit m1 40 d\ntune m1 B/op 50\nsubmit go m1 a r1 20\nBenchmarkX 1 0 B/op\nsubmit go m1 b r2 20\nBenchmarkX 1 0 B/op\nsubmit go m1 d r4 21\nBenchmarkX 1 10 B/op\nsegment m1 X B/op\nsubmit go m1 c r3 21\nBenchmarkX 1 10 B/op\nsegment m1 X B/op\nchanges m1 X B/op\n",
};

// The place where the first part begins that isn't whole within so many bytes.
fn begins(walk: &Walk<'_>, count: usize) -> usize {
    let mut place = 0usize;
    for (text, _) in walk.parts {
        let end = place.saturating_add(text.len());
        if end > count {
            break;
        }
        place = end;
    }
    place
}

// Whether the last line that is left of so many bytes asks for a body, which isn't whole then.
fn asks_body(walk: &Walk<'_>, count: usize) -> bool {
    match walk.script.get(begins(walk, count)..count) {
        Some(rest) => is_submission(first_line(rest)),
        None => false,
    }
}

fn first_line(text: &[u8]) -> &[u8] {
    match text.split(|b| *b == b'\n').next() {
        Some(line) => line,
        None => text,
    }
}

// Whether it has the words of a submission, the last of which is a number.
fn is_submission(line: &[u8]) -> bool {
    let spaces = line.iter().filter(|b| **b == b' ').count();
    let ends = match line.last() {
        Some(byte) => byte.is_ascii_digit(),
        None => false,
    };
    ends && (line.starts_with(b"submit go ") && spaces == 5
        || line.starts_with(b"submit lnt ") && spaces == 4)
}

// What stands behind the replies to the parts that are whole within so many bytes; none where they don't stand there.
fn behind<'a>(walk: &Walk<'_>, replies: &'a [u8], count: usize) -> Option<&'a [u8]> {
    let mut left = replies;
    let mut end = 0usize;
    for (text, reply) in walk.parts {
        end = end.saturating_add(text.len());
        if end > count {
            break;
        }
        left = left.strip_prefix(reply.as_bytes())?;
    }
    Some(left)
}

// Whether the first bytes of the script are answered up to their end.
fn is_answered_to(alloc: Global, walk: &Walk<'_>, count: usize) -> bool {
    match walk.script.get(..count) {
        Some(script) => is_answered(alloc, walk, script),
        None => false,
    }
}

fn is_answered(alloc: Global, walk: &Walk<'_>, script: &[u8]) -> bool {
    match drip_of(alloc, script, &[]) {
        Ok(mut source) => ends_well(alloc, walk, script.len(), &mut source),
        Err(_) => false,
    }
}

fn ends_well(alloc: Global, walk: &Walk<'_>, count: usize, source: &mut Drip) -> bool {
    match MemSink::new(alloc, 10_000, &[]) {
        Ok(mut out) => match comes_to(alloc, "apply", source, &mut out) {
            Some(Status::Done) => {
                !asks_body(walk, count) && behind(walk, out.bytes(), count).is_some()
            }
            Some(Status::CutOff(script, at)) => {
                asks_body(walk, count)
                    && script == 0
                    && at == begins(walk, count) as u64
                    && is_all(walk, out.bytes(), count)
            }
            _ => false,
        },
        Err(_) => false,
    }
}

// Whether these are the replies to the parts that are whole within so many bytes.
fn is_all(walk: &Walk<'_>, replies: &[u8], count: usize) -> bool {
    match behind(walk, replies, count) {
        Some(left) => left.is_empty(),
        None => false,
    }
}

// Whether it ends so where the read behind so many bytes fails.
fn fails_behind(alloc: Global, walk: &Walk<'_>, before: usize) -> bool {
    let call = (before as u64).saturating_add(1);
    match drip_of(alloc, walk.script, &[call]) {
        Ok(mut source) => stops_behind(alloc, walk, before, &mut source) && source.calls == call,
        Err(_) => false,
    }
}

fn stops_behind(alloc: Global, walk: &Walk<'_>, before: usize, source: &mut Drip) -> bool {
    match MemSink::new(alloc, 10_000, &[]) {
        Ok(mut out) => {
            comes_to(alloc, "apply", source, &mut out) == Some(Status::ReadFault)
                && is_all(walk, out.bytes(), before)
        }
        Err(_) => false,
    }
}

// A script that ends at any byte is answered up to there. Inside a body it is cut off; the first words of a line at its
// end are a line of their own. Where a read fails, nothing more is read, and the replies to all requests before it stand.
#[test]
fn a_script_ends_or_a_read_fails_at_each_byte(rt: HostRuntime) {
    for walk in &[MIXED, WORKED] {
        for at in 0..=walk.script.len() {
            assert!(rt; is_answered_to(rt.alloc(), walk, at), "ends at {at}");
            assert!(rt; fails_behind(rt.alloc(), walk, at), "fails at {at}");
        }
    }
}
