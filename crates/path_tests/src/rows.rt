//! Worked paths from cut lines to their text, and inputs that end early.
use path_command::Refusal::{Bad, Full};
use path_command::Stop::Refused;
use path_command::{PathEnd, path_points};
use std::alloc::Global;
use std::test::Fail;
use test_supplies::{PATH_OF_FOUR, PATH_OF_NONE, PATH_OF_TEN};
use track_outside::{MemSink, MemSource};

/// The least and the greatest penalty, the input, how it ends, and what it prints.
type Row<'a> = (i128, i128, &'a str, PathEnd, &'a str);

const ROWS: [Row; 7] = [
    (
        0,
        120,
        "1 0\n2 0\n3 10\n4 10\n",
        PathEnd::Done,
        PATH_OF_FOUR,
    ),
    (
        8,
        8,
        "1 0\n2 0\n3 4\n4 4\n5 2\n6 2\n7 2\n8 2\n9 2\n10 2\n",
        PathEnd::Done,
        PATH_OF_TEN,
    ),
    (5, 9, "", PathEnd::Done, PATH_OF_NONE),
    (
        5,
        5,
        "# none\n\n  4 7",
        PathEnd::Done,
        "stretches 1\n\
        stretch 5 5\n\
        points 1\npenalty 5\ncuts\ntotal 0\nleast -5 0\nback 0 0\npruned 0 0\n",
    ),
    (0, 1, "1 0\n2\n", PathEnd::Stopped(Refused(Bad, 2)), ""),
    (0, 1, "1 0\n2 x", PathEnd::Stopped(Refused(Bad, 2)), ""),
    (0, 1, "x\n2 0\n", PathEnd::Stopped(Refused(Bad, 1)), ""),
];

// How the path of some bytes ends, and whether it prints this.
fn ends(alloc: Global, low: i128, high: i128, bytes: &[u8], text: &[u8]) -> Option<PathEnd> {
    if low < 0 || low > high || high > 1_000 {
        return None;
    }
    let Ok(mut input) = MemSource::new(alloc, bytes, &[]) else {
        return None;
    };
    let Ok(mut out) = MemSink::new(alloc, 10_000, &[]) else {
        return None;
    };
    let end = path_points(alloc, low, high, &mut input, &mut out);
    if out.bytes() == text { Some(end) } else { None }
}

#[test]
fn worked_paths_end_as_they_should(rt: HostRuntime) {
    for row in &ROWS {
        let end = ends(rt.alloc(), row.0, row.1, row.2.as_bytes(), row.4.as_bytes());
        assert!(rt; end == Some(row.3), "{}", row.2);
    }
}

// Lines of so many positions, in falling order, each with the value 0.
fn falling(alloc: Global, count: u64) -> Option<Vec<u8>> {
    let mut lines = Vec::new(alloc);
    for i in 0..count {
        let order = count - i;
        let digits = [
            b'0' + (order / 1_000 % 10) as u8,
            b'0' + (order / 100 % 10) as u8,
            b'0' + (order / 10 % 10) as u8,
            b'0' + (order % 10) as u8,
        ];
        if lines.extend_from_slice(b"1").is_err()
            || lines.extend_from_slice(&digits).is_err()
            || lines.extend_from_slice(b" 0\n").is_err()
        {
            return None;
        }
    }
    Some(lines)
}

#[test]
fn a_line_past_the_positions_is_named(rt: HostRuntime) -> Result<(), Fail> {
    let Some(mut lines) = falling(rt.alloc(), 1_026) else {
        return Err(Fail::new("no memory"));
    };
    assert!(rt;
        ends(rt.alloc(), 0, 1, &lines, b"") == Some(PathEnd::Stopped(Refused(Full, 1_025)))
    );
    if lines.extend_from_slice(b"x\n").is_err() {
        return Err(Fail::new("no memory"));
    }
    assert!(rt;
        ends(rt.alloc(), 0, 1, &lines, b"") == Some(PathEnd::Stopped(Refused(Full, 1_025)))
    );
    Ok(())
}
