//! Texts and what they are read as, runs and what is written of them.
use line_text::Duplicate;
use lnt_report::{LntRun, ReportFault, put_report, read_report};
use sample_model::Sample;
use std::alloc::{AllocError, Global};

mod example;

// Appends a sample, behind a space or a line feed.
fn put_sample(
    alloc: Global,
    out: &mut String,
    sample: &Sample,
    in_lines: bool,
) -> Result<(), AllocError> {
    let (test, metric, value) = (sample.test.as_str(), sample.metric.as_str(), sample.value);
    let text = if in_lines {
        format!(in alloc; "{test} {metric} {value}\n")?
    } else {
        format!(in alloc; " {test},{metric},{value}")?
    };
    out.push_str(text.as_str())
}

// A run, in one line or in lines.
fn told_run(alloc: Global, run: &LntRun, in_lines: bool) -> Result<String, AllocError> {
    let (machine, commit, ignored) = (run.machine.as_str(), run.commit.as_str(), run.ignored);
    let mut out = if in_lines {
        format!(in alloc; "machine {machine}\ncommit {commit}\nignored {ignored}\n")?
    } else {
        format!(in alloc; "{machine} {commit} {ignored}")?
    };
    for sample in run.samples.as_slice() {
        put_sample(alloc, &mut out, sample, in_lines)?;
    }
    Ok(out)
}

// A fault, in words.
fn told_fault(alloc: Global, fault: &ReportFault) -> Result<String, AllocError> {
    match fault {
        ReportFault::NotText(place) => format!(in alloc; "not text {place}"),
        ReportFault::NotJson(place) => format!(in alloc; "not json {place}"),
        ReportFault::TooDeep(place) => format!(in alloc; "too deep {place}"),
        ReportFault::NotReport { rule, member } => {
            format!(in alloc; "rule {rule} at {}", member.as_str())
        }
        ReportFault::OutOfRange { test, metric } => {
            format!(in alloc; "out of range {} {}", test.as_str(), metric.as_str())
        }
        ReportFault::Full(limit) => format!(in alloc; "full {}", limit.word()),
        ReportFault::NoMemory => String::from_str(alloc, "no memory"),
    }
}

// Whether a run is told so.
fn is_run(alloc: Global, run: &LntRun, in_lines: bool, wanted: &str) -> bool {
    match told_run(alloc, run, in_lines) {
        Ok(words) => words.as_str() == wanted,
        Err(_) => false,
    }
}

// Whether a text is answered so.
fn is_told(alloc: Global, text: &[u8], in_lines: bool, wanted: &str) -> bool {
    match read_report(alloc, text) {
        Ok(run) => is_run(alloc, &run, in_lines, wanted),
        Err(fault) => told_fault(alloc, &fault).is_ok_and(|words| words.as_str() == wanted),
    }
}

// Texts, and what is said of their answer.
const TEXTS: [(&str, &str); 40] = [
    (
        r#"{"format_version":"2","machine":{"name":"m1","cpu":"x"},"run":{"start_time":"2024-01-01T00:00:00","end_time":"2024-01-01T00:10:00","llvm_project_revision":"a"},"tests":[{"name":"SingleSource/queens","execution_time":[0.1056,0.1055],"compile_time":1e-05,"hash":"49333a87"}]}"#,
        "m1 a 1 SingleSource/queens,execution_time,105600000 SingleSource/queens,execution_time,105500000 SingleSource/queens,compile_time,10000",
    ),
    (r#"{"a":1,"a":2}"#, "rule 2 at a"),
    ("", "not json 0"),
    (r#"{"a":1,}"#, "not json 7"),
    ("[[[[[[[[[[[[[[[[[[[[[[[[[[[[[[[[[", "too deep 32"),
    ("[]", "rule 1 at ."),
    (r#"[{"a":1,"a":2}]"#, "rule 1 at ."),
    (r#"{"x":[0,{"b":{"c":1,"\u0063":2}}]}"#, "rule 2 at x.1.b.c"),
    (
        r#"{"x":{"a":1,"b":{"c":1,"c":1},"a":2}}"#,
        "rule 2 at x.b.c",
    ),
    (r#"{"x":{"a":1,"a":{"c":1,"c":1}},"x":1}"#, "rule 2 at x.a"),
    (r#"{"":1,"":2}"#, "rule 2 at "),
    ("{}", "rule 3 at format_version"),
    (r#"{"format_version":2}"#, "rule 3 at format_version"),
    (r#"{"format_version":"1"}"#, "rule 3 at format_version"),
    (r#"{"format_version":"2"}"#, "rule 4 at machine"),
    (
        r#"{"machine":[],"format_version":"2"}"#,
        "rule 4 at machine",
    ),
    (
        r#"{"format_version":"2","machine":{}}"#,
        "rule 5 at machine.name",
    ),
    (
        r#"{"format_version":"2","machine":{"name":1}}"#,
        "rule 5 at machine.name",
    ),
    (
        r#"{"format_version":"2","machine":{"name":""}}"#,
        "rule 5 at machine.name",
    ),
    (
        r#"{"format_version":"2","machine":{"name":"m"}}"#,
        "rule 7 at run",
    ),
    (
        r#"{"format_version":"2","machine":{"name":"m"},"run":1}"#,
        "rule 7 at run",
    ),
    (
        r#"{"format_version":"2","machine":{"name":"m"},"run":{}}"#,
        "rule 8 at run.llvm_project_revision",
    ),
    (
        r#"{"format_version":"2","machine":{"name":"m"},"run":{"llvm_project_revision":"a"}}"#,
        "rule 9 at tests",
    ),
    (
        r#"{"format_version":"2","machine":{"name":"m"},"run":{"llvm_project_revision":"a"},"tests":{}}"#,
        "rule 9 at tests",
    ),
    (
        r#"{"format_version":"2","machine":{"name":"m"},"run":{"llvm_project_revision":"a"},"tests":[]}"#,
        "m a 0",
    ),
    (
        r#"{"format_version":"2","machine":{"name":"m"},"run":{"llvm_project_revision":"a"},"tests":[{"name":"t"},1]}"#,
        "rule 10 at tests.1",
    ),
    (
        r#"{"format_version":"2","machine":{"name":"m"},"run":{"llvm_project_revision":"a"},"tests":[{"":1}]}"#,
        "rule 11 at tests.0.name",
    ),
    (
        r#"{"format_version":"2","machine":{"name":"m"},"run":{"llvm_project_revision":"a"},"tests":[{"name":null}]}"#,
        "rule 11 at tests.0.name",
    ),
    (
        r#"{"format_version":"2","machine":{"name":"m"},"run":{"llvm_project_revision":"a"},"tests":[{"name":"t","":1}]}"#,
        "rule 12 at tests.0",
    ),
    (
        r#"{"format_version":"2","machine":{"name":"m"},"run":{"llvm_project_revision":"a"},"tests":[{"name":"t","a123456789b123456789c123456789d123456789e123456789f123456789ghijk":1}]}"#,
        "rule 12 at tests.0",
    ),
    (
        r#"{"format_version":"2","machine":{"name":"m"},"run":{"llvm_project_revision":"a"},"tests":[{"a123456789b123456789c123456789d123456789e123456789f123456789ghij":1,"name":"t"}]}"#,
        "m a 0 t,a123456789b123456789c123456789d123456789e123456789f123456789ghij,10000",
    ),
    (
        r#"{"format_version":"2","machine":{"name":"m"},"run":{"llvm_project_revision":"a"},"tests":[{"name":"t","k":true}]}"#,
        "rule 13 at tests.0.k",
    ),
    (
        r#"{"format_version":"2","machine":{"name":"m"},"run":{"llvm_project_revision":"a"},"tests":[{"name":"t","k":{}}]}"#,
        "rule 13 at tests.0.k",
    ),
    (
        r#"{"format_version":"2","machine":{"name":"m"},"run":{"llvm_project_revision":"a"},"tests":[{"name":"t","k":[1,"2"]}]}"#,
        "rule 13 at tests.0.k",
    ),
    (
        r#"{"format_version":"2","machine":{"name":"m"},"run":{"llvm_project_revision":"a"},"tests":[{"name":"t","k":[],"":1,"l":false}]}"#,
        "rule 12 at tests.0",
    ),
    (
        r#"{"format_version":"2","machine":{"name":"m"},"run":{"llvm_project_revision":"a"},"tests":[{"name":"t","k":[],"h":null,"i":"5","code_size":-2.5}]}"#,
        "m a 2 t,code_size,-3",
    ),
    (
        r#"{"format_version":"2","machine":{"name":"m"},"run":{"llvm_project_revision":"a"},"tests":[{"name":"t","k":1e12,"l":1000000000001}]}"#,
        "out of range t l",
    ),
    (
        r#"{"format_version":"2","machine":{"name":"m"},"run":{"llvm_project_revision":"a"},"tests":[{"name":"t","k":[0.00000000000000000000000000000000000001]}]}"#,
        "out of range t k",
    ),
    (
        r#"{"format_version":"2","machine":{"name":"m"},"run":{"llvm_project_revision":"a"},"tests":[{"name":"t","k":1e99},{"name":"u","k":true}]}"#,
        "rule 13 at tests.1.k",
    ),
    (
        r#"{"format_version":"2","machine":{"name":"\u006d\ud83d\ude00"},"run":{"llvm_project_revision":"a"},"tests":[{"name":"t","ns/op":-0}]}"#,
        "m😀 a 0 t,ns/op,0",
    ),
];

#[test]
fn texts_are_read_or_refused(rt: HostRuntime) {
    for (text, wanted) in &TEXTS {
        assert!(rt;
            is_told(rt.alloc(), text.as_bytes(), false, wanted),
            "{text}"
        );
    }
    assert!(rt; is_told(rt.alloc(), b"\"\xff\"", false, "not text 1"));
    assert!(rt;
        is_told(
            rt.alloc(),
            example::SUBMISSION.as_bytes(),
            true,
            example::SAMPLES
        )
    );
}

// Texts, what is written of the runs that they are read as, and what is said of that.
const WRITTEN: [(&str, &str, &str); 3] = [
    (
        r#"{"format_version":"2","machine":{"name":"m1","cpu":"x"},"run":{"start_time":"2024-01-01T00:00:00","end_time":"2024-01-01T00:10:00","llvm_project_revision":"a"},"tests":[{"name":"SingleSource/queens","execution_time":[0.1056,0.1055],"compile_time":1e-05,"hash":"49333a87"}]}"#,
        r#"{"format_version":"2","machine":{"name":"m1"},"run":{"llvm_project_revision":"a"},"tests":[{"name":"SingleSource/queens","execution_time":0.105600000},{"name":"SingleSource/queens","execution_time":0.105500000},{"name":"SingleSource/queens","compile_time":0.000010000}]}"#,
        "m1 a 0 SingleSource/queens,execution_time,105600000 SingleSource/queens,execution_time,105500000 SingleSource/queens,compile_time,10000",
    ),
    (
        r#"{"format_version":"2","machine":{"name":"m"},"run":{"llvm_project_revision":"a"},"tests":[]}"#,
        r#"{"format_version":"2","machine":{"name":"m"},"run":{"llvm_project_revision":"a"},"tests":[]}"#,
        "m a 0",
    ),
    (
        r#"{"format_version":"2","machine":{"name":"\"\\"},"run":{"llvm_project_revision":"\u001f\ud83d\ude00"},"tests":[{"name":"t","code_size":-2,"ns\/op":-0.5}]}"#,
        r#"{"format_version":"2","machine":{"name":"\"\\"},"run":{"llvm_project_revision":"\u001f😀"},"tests":[{"name":"t","code_size":-2},{"name":"t","ns/op":-0.5000}]}"#,
        "\"\\ \u{1f}😀 0 t,code_size,-2 t,ns/op,-5000",
    ),
];

// What is written of a text's run; none where there is none.
fn written(alloc: Global, text: &str) -> Option<Vec<u8>> {
    let run = read_report(alloc, text.as_bytes()).ok()?;
    put_report(alloc, &run).ok()
}

// Whether this is written, and read again so.
fn is_written(alloc: Global, text: &str, again: &str, wanted: &str) -> bool {
    match written(alloc, text) {
        Some(bytes) => bytes.as_slice() == again.as_bytes()
            && is_told(alloc, &bytes, false, wanted),
        None => false,
    }
}

// A text whose run is copied.
const COPIED: &str =
    r#"{"format_version":"2","machine":{"name":"m"},"run":{"llvm_project_revision":"a"},"tests":[{"name":"t","hash":"5","code_size":[3,-2]}]}"#;

// A copy of its run; none where there is none.
fn copied(alloc: Global) -> Option<LntRun> {
    let run = read_report(alloc, COPIED.as_bytes()).ok()?;
    run.copy(alloc).ok()
}

// Whether the copy is so.
fn is_copied(alloc: Global, wanted: &str) -> bool {
    match copied(alloc) {
        Some(run) => is_run(alloc, &run, false, wanted),
        None => false,
    }
}

#[test]
fn what_is_written_is_read_and_a_copy_is_the_same(rt: HostRuntime) {
    for (text, again, wanted) in &WRITTEN {
        assert!(rt; is_written(rt.alloc(), text, again, wanted), "{text}");
    }
    assert!(rt; is_copied(rt.alloc(), "m a 1 t,code_size,3 t,code_size,-2"));
}
