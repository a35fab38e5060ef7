//! Requests as they are written.
use request_model::{Refusal, Request};
use request_reader::{Asked, Lines, read_request};
use request_text::put_request;
use std::alloc::Global;
use track_outside::MemSource;

// Scripts, and how their first request is written.
const WRITTEN: [(&[u8], &str); 14] = [
    (
        b"submit  go m%31 a,%2cb r1 20\nBenchmarkX 1 0 B/op\n",
        "submit go m1 a%2C%2Cb r1 25\npkg:\nBenchmarkX 1 0 B/op\n",
    ),
    (b"machine m1\r\n", "machine m1%0D\n"),
    (b"commit m 10 a%20b", "commit m 10 a%20b\n"),
    (b"commit m%201 10 a,b", "commit m%201 10 a%2Cb\n"),
    (
        b"tune  m B%2fop 1000000000000000000000000000000000000",
        "tune m B/op 1000000000000000000000000000000000000\n",
    ),
    (b"tune m B/op  5 64", "tune m B/op 5 64\n"),
    (b"regress m T%31 ns/op 2", "regress m T1 ns/op 2\n"),
    (b"state m 1  not_to_be_fixed", "state m 1 not_to_be_fixed\n"),
    (b"bisect m c0 c,10", "bisect m c0 c%2C10\n"),
    (b"answer m 1 c5 255", "answer m 1 c5 255\n"),
    (b"resume m 1", "resume m 1\n"),
    (
        b"job m 18446744073709551615",
        "job m 18446744073709551615\n",
    ),
    (b"report m text", "report m text\n"),
    (b"report m json", "report m json\n"),
];

// The first request of a script; none where there is none.
fn asked(alloc: Global, script: &[u8]) -> Option<Request> {
    let mut source = MemSource::new(alloc, script, &[]).ok()?;
    let mut lines = Lines::new(alloc).ok()?;
    match read_request(alloc, &mut lines, &mut source) {
        Ok(Asked::Request(request)) => Some(request),
        _ => None,
    }
}

// Whether it is written so.
fn is_written(alloc: Global, script: &[u8], wanted: &str) -> bool {
    match asked(alloc, script) {
        Some(request) => {
            let mut out = Vec::new(alloc);
            put_request(alloc, &mut out, &request).is_ok() && out.as_slice() == wanted.as_bytes()
        }
        None => false,
    }
}

// Lines of no form.
const FORMLESS: [&[u8]; 4] = [
    b"answer m 1 c5 256",
    b"state m 1 Fixed",
    b"report m JSON",
    b"resume m 18446744073709551616",
];

// Whether a line is refused as one of no form.
fn is_formless(alloc: Global, script: &[u8]) -> bool {
    let Ok(mut source) = MemSource::new(alloc, script, &[]) else {
        return false;
    };
    let Ok(mut lines) = Lines::new(alloc) else {
        return false;
    };
    matches!(
        read_request(alloc, &mut lines, &mut source),
        Ok(Asked::Refused(Refusal::BadRequest))
    )
}

#[test]
fn other_words_are_no_form(rt: HostRuntime) {
    for line in &FORMLESS {
        assert!(rt; is_formless(rt.alloc(), line));
    }
}

#[test]
fn a_request_is_written_in_its_one_spelling(rt: HostRuntime) {
    for (script, wanted) in &WRITTEN {
        assert!(rt; is_written(rt.alloc(), script, wanted), "{wanted}");
    }
}
