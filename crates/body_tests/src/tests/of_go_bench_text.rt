//! Lines, texts and samples, with what they are read as and what is written of them.
use go_bench_text::{GoRun, LineKind, PutFault, line_kind, put_go, read_go};
use line_text::{Duplicate, Name};
use sample_model::{Sample, Samples};
use std::alloc::{AllocError, Global};

// Appends a sample in words.
fn put_sample(alloc: Global, out: &mut String, sample: &Sample) -> Result<(), AllocError> {
    let line = format!(in alloc;
        "{} {} {}\n",
        sample.test.as_str(),
        sample.metric.as_str(),
        sample.value
    )?;
    out.push_str(line.as_str())
}

// Appends how many lines were ignored.
fn put_ignored(alloc: Global, out: &mut String, ignored: u64) -> Result<(), AllocError> {
    let line = format!(in alloc; "ignored {ignored}\n")?;
    out.push_str(line.as_str())
}

// What a text has, in words.
fn listed(alloc: Global, run: &GoRun) -> Result<String, AllocError> {
    let mut out = String::new(alloc);
    for sample in run.samples.as_slice() {
        put_sample(alloc, &mut out, sample)?;
    }
    put_ignored(alloc, &mut out, run.ignored)?;
    Ok(out)
}

// What a text is read as, in words.
fn told(alloc: Global, text: &[u8]) -> Result<String, AllocError> {
    match read_go(alloc, text) {
        Ok(run) => listed(alloc, &run),
        Err(fault) => format!(in alloc; "{fault:?}"),
    }
}

// Whether a text is read so.
fn is_told(alloc: Global, text: &[u8], wanted: &str) -> bool {
    match told(alloc, text) {
        Ok(words) => words.as_str() == wanted,
        Err(_) => false,
    }
}

// Lines and their kinds.
const LINES: [(&str, LineKind); 27] = [
    ("pkg: a", LineKind::Config),
    ("a:", LineKind::Config),
    ("a:b", LineKind::Other),
    ("a: b", LineKind::Config),
    ("a:\tb", LineKind::Config),
    ("aB: b", LineKind::Other),
    ("a b: c", LineKind::Other),
    ("A: b", LineKind::Other),
    (": b", LineKind::Other),
    ("a\r", LineKind::Other),
    ("a:\r\r", LineKind::Config),
    ("a:\rb", LineKind::Other),
    ("a::", LineKind::Other),
    ("a: :", LineKind::Config),
    ("\u{e9}t\u{e9}: x", LineKind::Config),
    ("\u{1c5}: x", LineKind::Other),
    ("a\u{1c5}: x", LineKind::Config),
    ("a\u{3000}: x", LineKind::Other),
    ("", LineKind::Other),
    ("PASS", LineKind::Other),
    ("Benchmark", LineKind::Broken),
    ("Benchmark 1 2 u", LineKind::Result),
    ("BenchmarkX 1 2 u", LineKind::Result),
    ("BenchmarkX: 1", LineKind::Broken),
    ("Benchmarkx: 1 2 u", LineKind::Broken),
    ("BenchmarkX 1 2 u ", LineKind::Result),
    (" BenchmarkX 1 2 u", LineKind::Other),
];

#[test]
fn lines_have_the_kinds_of_the_rules(rt: HostRuntime) {
    for (line, kind) in &LINES {
        assert!(rt; line_kind(line) == *kind, "at {line:?}");
    }
}

// Texts, and what they are read as.
const TEXTS: [(&str, &str); 23] = [
    (
        "goos: linux\ngoarch: amd64\npkg: example.com/fib\ncpu: Intel(R) Xeon(R) CPU\nBenchmarkFib10-8   5000000   325.4 ns/op   16 B/op   2 allocs/op\nBenchmarkFib20-8   50000   40537 ns/op\nPASS\nok  example.com/fib  3.412s\n",
        "example.com/fib#Fib10-8 ns/op 3254000\nexample.com/fib#Fib10-8 B/op 16\nexample.com/fib#Fib10-8 allocs/op 2\nexample.com/fib#Fib20-8 ns/op 405370000\nignored 0\n",
    ),
    ("BenchmarkX 1 1000000000000.0001 ns/op", "OutOfRange(1)"),
    (
        "BenchmarkX 1 1000000000000 ns/op",
        "X ns/op 10000000000000000\nignored 0\n",
    ),
    (
        "\nPASS\nBenchmarkX 1 5 ns/op\nBenchmarkX 1 1e13 ns/op\nBenchmarkX 1 1e14 ns/op",
        "OutOfRange(4)",
    ),
    ("", "ignored 0\n"),
    (
        "pkg: a\r\r\nBenchmarkX 1 5 B/op\r\n",
        "a#X B/op 5\nignored 0\n",
    ),
    (
        "pkg:\t \ta\tb \nBenchmarkX\t1\t 5  \t B/op",
        "a\tb #X B/op 5\nignored 0\n",
    ),
    (
        "pkg: a:b\nBenchmarkX 1 5 B/op\n",
        "a:b#X B/op 5\nignored 0\n",
    ),
    (
        "pkg: a\npkg:b\nBenchmarkX 1 5 B/op\npkg:\nBenchmarkX 1 6 B/op\nBenchmark 1 7 B/op\n",
        "a#X B/op 5\nX B/op 6\n# B/op 7\nignored 0\n",
    ),
    (
        "pkg: a\npkg: \r\nBenchmarkX 1 6 B/op\n",
        "X B/op 6\nignored 0\n",
    ),
    (
        "pkg: a\nPkg: b\n pkg: c\npkg : d\nBenchmark 1 6 B/op\n",
        "a# B/op 6\nignored 0\n",
    ),
    (
        "Benchmark\u{1c5} 1 2 B/op\nBenchmark\u{c9} 1 2 B/op\nBenchmark\u{e9} 1 2 B/op\n",
        "\u{c9} B/op 2\nignored 2\n",
    ),
    (
        "BenchmarkX\u{85}1\u{3000}3\u{2003}B/op\u{a0}4 c",
        "X B/op 3\nX c 40000\nignored 0\n",
    ),
    (
        "BenchmarkX\u{1c}1 3 B/op\nBenchmarkX 1 3 a\u{1f}b\n",
        "X a\u{1f}b 30000\nignored 1\n",
    ),
    (
        "BenchmarkX \u{663} 3 B/op\nBenchmarkX 3 \u{663} B/op\nBenchmarkX 1 2\nBenchmarkX 1 2 B/op 3\nBenchmarkX +1 2 B/op\n",
        "ignored 5\n",
    ),
    (
        "BenchmarkX 1 1e3 B/op 2.5E+2 B/op -15e-1 B/op +.5 B/op",
        "ignored 1\n",
    ),
    (
        "BenchmarkX 1 1e3 B/op 2.5E+2 B/op -15e-1 B/op +0.5 B/op",
        "X B/op 1000\nX B/op 250\nX B/op -2\nX B/op 1\nignored 0\n",
    ),
    (
        "BenchmarkX 1 1.000000000000000000000000000000000e+000 B/op\nBenchmarkX 1 1.0000000000000000000000000000000000e+000 B/op\n",
        "X B/op 1\nignored 1\n",
    ),
    (
        "BenchmarkX 1 1 uuuuuuuuuuuuuuuuuuuuuuuuuuuuuuuuuuuuuuuuuuuuuuuuuuuuuuuuuuuuuuuu\nBenchmarkX 1 1 uuuuuuuuuuuuuuuuuuuuuuuuuuuuuuuuuuuuuuuuuuuuuuuuuuuuuuuuuuuuuuuuu\n",
        "X uuuuuuuuuuuuuuuuuuuuuuuuuuuuuuuuuuuuuuuuuuuuuuuuuuuuuuuuuuuuuuuu 10000\nignored 1\n",
    ),
    (
        " BenchmarkX 1 2 B/op\nxBenchmarkX 1 2 B/op\nBenchmarking\n",
        "ignored 1\n",
    ),
    (
        "BenchmarkA 1 5\nBenchmarkB 1 Inf ns/op\nBenchmark 1 7 B/op\nBenchmarkfoo 1 2 ns/op\n",
        "# B/op 7\nignored 3\n",
    ),
    (
        "pkg: p\nBenchmarkAAAAAAAAAAAAAAAAAAAAAAAAAAAAAAAAAAAAAAAAAAAAAAAAAAAAAAAAAAAAAAAAAAAAAAAAAAAAAAAAAAAAAAAAAAAAAAAAAAAAAAAAAAAAAAAAAAAAAAAAAAAAAAAAAAAAAAAAAAAAAAAAAAAAAAAAAAAAAAAAAAAAAAAAAAAAAAAAAAAAAAAAAAAAAAAAAAAAAAAAAAAAAAAAAAAAAAAAAAAAAAAAAAAAAAAAAAAAAAAAAAAAAAAAAAAAAA 1 2 B/op\n",
        "p#AAAAAAAAAAAAAAAAAAAAAAAAAAAAAAAAAAAAAAAAAAAAAAAAAAAAAAAAAAAAAAAAAAAAAAAAAAAAAAAAAAAAAAAAAAAAAAAAAAAAAAAAAAAAAAAAAAAAAAAAAAAAAAAAAAAAAAAAAAAAAAAAAAAAAAAAAAAAAAAAAAAAAAAAAAAAAAAAAAAAAAAAAAAAAAAAAAAAAAAAAAAAAAAAAAAAAAAAAAAAAAAAAAAAAAAAAAAAAAAAAAAAAAAAAAAAAA B/op 2\nignored 0\n",
    ),
    (
        "pkg: p\nBenchmarkAAAAAAAAAAAAAAAAAAAAAAAAAAAAAAAAAAAAAAAAAAAAAAAAAAAAAAAAAAAAAAAAAAAAAAAAAAAAAAAAAAAAAAAAAAAAAAAAAAAAAAAAAAAAAAAAAAAAAAAAAAAAAAAAAAAAAAAAAAAAAAAAAAAAAAAAAAAAAAAAAAAAAAAAAAAAAAAAAAAAAAAAAAAAAAAAAAAAAAAAAAAAAAAAAAAAAAAAAAAAAAAAAAAAAAAAAAAAAAAAAAAAAAAAAAAAAAA 1 2 B/op\n",
        "OutOfRange(2)",
    ),
];

// Texts that are none, which end or go on with no character at byte 2.
const NO_TEXTS: [&[u8]; 2] = [b"ab\xffc", b"ab\xe3\x80"];

// As the tools of Go print it: a copy of `examples/go-bench.txt`.
const PRINTED: &str =
    "goos: linux\ngoarch: amd64\npkg: example.com/store/index\ncpu: Intel(R) Core(TM) i7-9750H CPU @ 2.60GHz\nBenchmarkLookup-8                \t15243216\t        78.61 ns/op\t       0 B/op\t       0 allocs/op\nBenchmarkInsert/keys=100-8       \t  184503\t      6541 ns/op\t    4096 B/op\t      12 allocs/op\nBenchmarkInsert/keys=10000-8     \t    1630\t    731842 ns/op\t  524288 B/op\t     145 allocs/op\nBenchmarkScan/sequential/warm-8  \t     512\t   2301877.5 ns/op\t 455.53 MB/s\t     128 B/op\t       3 allocs/op\nBenchmarkMerge-8                 \t    2048\t    584210 ns/op\t        17.25 probes/op\nPASS\nok  \texample.com/store/index\t9.184s\npkg: example.com/store/cache\nBenchmarkEvict\nBenchmarkEvict-8   \t1000000000\t         0.3127 ns/op\nBenchmarkFill-8    \t       1\t1.5e+09 ns/op\t        98.7 hit%\n--- BENCH: BenchmarkFill-8\n    cache_test.go:41: filled 1 time\nPASS\nok  \texample.com/store/cache\t2.017s\n";

// What it is read as.
const PRINTED_SAMPLES: &str =
    "example.com/store/index#Lookup-8 ns/op 786100\nexample.com/store/index#Lookup-8 B/op 0\nexample.com/store/index#Lookup-8 allocs/op 0\nexample.com/store/index#Insert/keys=100-8 ns/op 65410000\nexample.com/store/index#Insert/keys=100-8 B/op 4096\nexample.com/store/index#Insert/keys=100-8 allocs/op 12\nexample.com/store/index#Insert/keys=10000-8 ns/op 7318420000\nexample.com/store/index#Insert/keys=10000-8 B/op 524288\nexample.com/store/index#Insert/keys=10000-8 allocs/op 145\nexample.com/store/index#Scan/sequential/warm-8 ns/op 23018775000\nexample.com/store/index#Scan/sequential/warm-8 MB/s 4555300\nexample.com/store/index#Scan/sequential/warm-8 B/op 128\nexample.com/store/index#Scan/sequential/warm-8 allocs/op 3\nexample.com/store/index#Merge-8 ns/op 5842100000\nexample.com/store/index#Merge-8 probes/op 172500\nexample.com/store/cache#Evict-8 ns/op 3127\nexample.com/store/cache#Fill-8 ns/op 15000000000000\nexample.com/store/cache#Fill-8 hit% 987000\nignored 1\n";

#[test]
fn texts_give_the_samples_of_the_rules(rt: HostRuntime) {
    for (text, wanted) in &TEXTS {
        assert!(rt; is_told(rt.alloc(), text.as_bytes(), wanted), "at {text:?}");
    }
    for text in &NO_TEXTS {
        assert!(rt; is_told(rt.alloc(), text, "NotText(2)"), "at {text:?}");
    }
    assert!(rt; is_told(rt.alloc(), PRINTED.as_bytes(), PRINTED_SAMPLES));
}

// A copy of what a text has; none where there is no memory.
fn copied(alloc: Global, text: &[u8]) -> Option<GoRun> {
    let run = read_go(alloc, text).ok()?;
    run.copy(alloc).ok()
}

// Whether the copy is so, in words.
fn is_copied(alloc: Global, text: &[u8], wanted: &str) -> bool {
    match copied(alloc, text) {
        Some(run) => listed(alloc, &run).is_ok_and(|words| words.as_str() == wanted),
        None => false,
    }
}

#[test]
fn what_was_read_is_copied_whole(rt: HostRuntime) {
    let text = b"pkg: a\nBenchmarkX 1 5 B/op 6 ns/op\nBenchmarkY\n";
    let wanted = "a#X B/op 5\na#X ns/op 60000\nignored 1\n";
    assert!(rt; is_copied(rt.alloc(), text, wanted));
}

// A sample; none where a name is none.
fn sample(alloc: Global, test: &str, metric: &str, value: i32) -> Option<Sample> {
    if metric.len() > 64 {
        return None;
    }
    let test = Name::of_text(alloc, test.as_bytes()).ok()?;
    let metric = Name::of_text(alloc, metric.as_bytes()).ok()?;
    Some(Sample {
        test,
        metric,
        value: i64::from(value),
    })
}

// Appends a sample; no where there is none.
fn adds(samples: &mut Samples, sample: Option<Sample>) -> bool {
    match sample {
        Some(sample) => samples.len() < 65_536 && samples.push(sample).is_ok(),
        None => false,
    }
}

// Whether this is put of some samples.
fn is_put_of(alloc: Global, samples: &Samples, wanted: &str) -> bool {
    match put_go(alloc, samples) {
        Ok(text) => text.as_slice() == wanted.as_bytes(),
        Err(PutFault::CannotWrite(1)) => wanted == "CannotWrite(1)",
        Err(_) => false,
    }
}

// Whether this is put of two samples, of which this is the second.
fn is_put(alloc: Global, test: &str, metric: &str, value: i32, wanted: &str) -> bool {
    let mut samples = Samples::new(alloc);
    adds(&mut samples, sample(alloc, "A", "B/op", 0))
        && adds(&mut samples, sample(alloc, test, metric, value))
        && is_put_of(alloc, &samples, wanted)
}

// Samples, and what is put of them behind another one.
const SAMPLES: [(&str, &str, i32, &str); 15] = [
    (
        "#",
        "B/op",
        7,
        "pkg:\nBenchmarkA 1 0 B/op\npkg:\nBenchmark 1 7 B/op\n",
    ),
    (
        "Fib-8",
        "ns/op",
        3254000,
        "pkg:\nBenchmarkA 1 0 B/op\npkg:\nBenchmarkFib-8 1 325.4000 ns/op\n",
    ),
    (
        "A#B",
        "B/op",
        -3,
        "pkg:\nBenchmarkA 1 0 B/op\npkg:\nBenchmarkA#B 1 -3 B/op\n",
    ),
    (
        "a#b#C",
        "B/op",
        1,
        "pkg:\nBenchmarkA 1 0 B/op\npkg: a#b\nBenchmarkC 1 1 B/op\n",
    ),
    (
        "a#B#C",
        "B/op",
        1,
        "pkg:\nBenchmarkA 1 0 B/op\npkg: a\nBenchmarkB#C 1 1 B/op\n",
    ),
    (
        "a#",
        "execution_time",
        5,
        "pkg:\nBenchmarkA 1 0 B/op\npkg: a\nBenchmark 1 0.000000005 execution_time\n",
    ),
    (
        "a b#\u{c9}t\u{e9}",
        "u",
        1,
        "pkg:\nBenchmarkA 1 0 B/op\npkg: a b\nBenchmark\u{c9}t\u{e9} 1 0.0001 u\n",
    ),
    ("A b", "u", 1, "CannotWrite(1)"),
    ("#A", "u", 1, "CannotWrite(1)"),
    (" a#A", "u", 1, "CannotWrite(1)"),
    ("a\r#A", "u", 1, "CannotWrite(1)"),
    ("a\nb#A", "u", 1, "CannotWrite(1)"),
    ("a#b", "u", 1, "CannotWrite(1)"),
    ("A", "a b", 1, "CannotWrite(1)"),
    ("A", "a\u{3000}", 1, "CannotWrite(1)"),
];

#[test]
fn samples_are_put_by_the_rules(rt: HostRuntime) {
    for (test, metric, value, wanted) in &SAMPLES {
        assert!(rt;
            is_put(rt.alloc(), test, metric, *value, wanted),
            "at {test:?}"
        );
    }
}
