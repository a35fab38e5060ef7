//! Both forms of a report, as the documents print them, and what a reader of JSON finds in the second.
use crate::tests::tree_text::is_answer;
use line_text::Name;
use regression_state::State;
use report_model::{
    JobLine, JobLines, Pages, RegressionLine, RegressionLines, SeriesLine, SeriesLines, Told,
};
use report_pages::{put_json, put_text};
use std::alloc::Global;

fn named(alloc: Global, text: &str) -> Option<Name> {
    Name::of_text(alloc, text.as_bytes()).ok()
}

// A series with names, samples, positions, changes and a centre.
type Series<'a> = (&'a str, &'a str, u64, u64, Option<u64>, Option<i64>);

// Its line; none where there is no memory.
fn series_line(alloc: Global, said: &Series) -> Option<SeriesLine> {
    let (test, metric, samples, positions, changes, centre) = said;
    let test = named(alloc, test)?;
    let metric = named(alloc, metric)?;
    Some(SeriesLine {
        test,
        metric,
        samples: *samples,
        positions: *positions,
        changes: *changes,
        centre: *centre,
    })
}

// The list of one series; none where there is no memory.
fn series_of(alloc: Global, said: &Series) -> Option<SeriesLines> {
    let line = series_line(alloc, said)?;
    let mut series = SeriesLines::new(alloc);
    if series.push(line).is_err() {
        return None;
    }
    Some(series)
}

// A report of one series and nothing else; none where there is no memory.
fn pages_of(alloc: Global, machine: &str, step: u64, said: &Series) -> Option<Pages> {
    let machine = named(alloc, machine)?;
    let series = series_of(alloc, said)?;
    Some(Pages {
        machine,
        step,
        json: true,
        series,
        regressions: RegressionLines::new(alloc),
        jobs: JobLines::new(alloc),
    })
}

/// Both forms of a report, and what is read of the second.
type Forms<'a> = (&'a str, &'a str, &'a str);

// Whether a report has these forms, and its JSON is read as this tree.
fn has_forms(alloc: Global, pages: &Pages, forms: &Forms) -> bool {
    let (text, line, tree) = forms;
    let mut out = Vec::new(alloc);
    if put_text(alloc, &mut out, pages).is_err() || out.as_slice() != text.as_bytes() {
        return false;
    }
    let mut json = Vec::new(alloc);
    put_json(alloc, &mut json, pages).is_ok()
        && json.as_slice() == line.as_bytes()
        && is_answer(alloc, &json, tree)
}

/// A machine and a step with one series, and the forms of the report.
type Row<'a> = (&'a str, u64, Series<'a>, Forms<'a>);

/// A plain report; names that need escaping: quotes, a backslash, control characters, letters beyond ASCII, a percent sign
/// and a comma.
const REPORTS: [Row; 2] = [
    (
        "m1",
        11,
        ("X", "B/op", 4, 4, Some(1), Some(10)),
        (
            "series X                                        B/op                    4        4        1                   10\n",
            "{\"jobs\":[],\"machine\":\"m1\",\"regressions\":[],\"series\":[{\"centre\":\"10\",\"changes\":1,\"metric\":\"B/op\",\"positions\":4,\"samples\":4,\"test\":\"X\"}],\"step\":11}\n",
            "{jobs=[],machine=|m1|,regressions=[],series=[{centre=|10|,changes=#1,metric=|B/op|,positions=#4,samples=#4,test=|X|,},],step=#11,}",
        ),
    ),
    (
        "m\t",
        3,
        ("a\"b\\c\n\u{1}é%,", "µs", 1, 1, Some(0), Some(-5000)),
        (
            "series a\"b\\c%0A%01%C3%A9%25%2C                  %C2%B5s                 1        1        0              -0.5000\n",
            "{\"jobs\":[],\"machine\":\"m\\t\",\"regressions\":[],\"series\":[{\"centre\":\"-0.5000\",\"changes\":0,\"metric\":\"µs\",\"positions\":1,\"samples\":1,\"test\":\"a\\\"b\\\\c\\n\\u0001é%,\"}],\"step\":3}\n",
            "{jobs=[],machine=|m\t|,regressions=[],series=[{centre=|-0.5000|,changes=#0,metric=|µs|,positions=#1,samples=#1,test=|a\"b\\c\n\u{1}é%,|,},],step=#3,}",
        ),
    ),
];

// Whether the report of a row has its forms.
fn is_printed(alloc: Global, row: &Row) -> bool {
    let (machine, step, said, forms) = row;
    match pages_of(alloc, machine, *step, said) {
        Some(pages) => has_forms(alloc, &pages, forms),
        None => false,
    }
}

#[test]
fn a_series_is_printed_in_both_forms(rt: HostRuntime) {
    for row in &REPORTS {
        assert!(rt; is_printed(rt.alloc(), row), "{}", row.3.0);
    }
}

// The line of a regression; none where there is no memory.
fn regression(alloc: Global) -> Option<RegressionLine> {
    let test = named(alloc, "T")?;
    let metric = named(alloc, "ns/op")?;
    let before = named(alloc, "a")?;
    let after = named(alloc, "b")?;
    Some(RegressionLine {
        number: 1,
        test,
        metric,
        before,
        after,
        state: State::NotToBeFixed,
    })
}

// The list of it; none where there is no memory.
fn regressions(alloc: Global) -> Option<RegressionLines> {
    let line = regression(alloc)?;
    let mut lines = RegressionLines::new(alloc);
    if lines.push(line).is_err() {
        return None;
    }
    Some(lines)
}

// What was found; none where there is no memory.
fn found(alloc: Global) -> Option<Told> {
    let lo = named(alloc, "c5")?;
    let hi = named(alloc, "c6")?;
    Some(Told::Found { lo, hi })
}

// What is undecided; none where there is no memory.
fn undecided(alloc: Global) -> Option<Told> {
    let commit = named(alloc, "c4")?;
    Some(Told::Undecided {
        commit,
        status: 125,
    })
}

// Appends a bisection; no where there is none.
fn adds(jobs: &mut JobLines, job: u64, questions: u64, outcome: Option<Told>) -> bool {
    match outcome {
        Some(outcome) => jobs
            .push(JobLine {
                job,
                range: 8,
                questions,
                outcome,
            })
            .is_ok(),
        None => false,
    }
}

// Two bisections; none where there is no memory.
fn jobs(alloc: Global) -> Option<JobLines> {
    let mut lines = JobLines::new(alloc);
    if !adds(&mut lines, 1, 3, found(alloc)) || !adds(&mut lines, 2, 0, undecided(alloc)) {
        return None;
    }
    Some(lines)
}

// A report with each kind of line; none where there is no memory.
fn full_pages(alloc: Global) -> Option<Pages> {
    let mut pages = pages_of(alloc, "m", 7, &("a test", "ns/op", 3, 2, None, None))?;
    pages.regressions = regressions(alloc)?;
    pages.jobs = jobs(alloc)?;
    Some(pages)
}

const FULL: Forms = (
    "series a%20test                                 ns/op                   3        2        -                    -\nregression 1 T ns/op a b not_to_be_fixed\njob 1 range 8 questions 3 found c5 c6\njob 2 range 8 questions 0 undecided c4 125\n",
    "{\"jobs\":[{\"job\":1,\"outcome\":\"found c5 c6\",\"questions\":3,\"range\":8},{\"job\":2,\"outcome\":\"undecided c4 125\",\"questions\":0,\"range\":8}],\"machine\":\"m\",\"regressions\":[{\"after\":\"b\",\"before\":\"a\",\"metric\":\"ns/op\",\"number\":1,\"state\":\"not_to_be_fixed\",\"test\":\"T\"}],\"series\":[{\"centre\":null,\"changes\":null,\"metric\":\"ns/op\",\"positions\":2,\"samples\":3,\"test\":\"a test\"}],\"step\":7}\n",
    "{jobs=[{job=#1,outcome=|found c5 c6|,questions=#3,range=#8,},{job=#2,outcome=|undecided c4 125|,questions=#0,range=#8,},],machine=|m|,regressions=[{after=|b|,before=|a|,metric=|ns/op|,number=#1,state=|not_to_be_fixed|,test=|T|,},],series=[{centre=null,changes=null,metric=|ns/op|,positions=#2,samples=#3,test=|a test|,},],step=#7,}",
);

// Whether it has its forms.
fn is_full(alloc: Global) -> bool {
    match full_pages(alloc) {
        Some(pages) => has_forms(alloc, &pages, &FULL),
        None => false,
    }
}

// Whether a report of nothing has its forms.
fn is_empty(alloc: Global) -> bool {
    match named(alloc, "m") {
        Some(machine) => {
            let pages = Pages {
                machine,
                step: 0,
                json: false,
                series: SeriesLines::new(alloc),
                regressions: RegressionLines::new(alloc),
                jobs: JobLines::new(alloc),
            };
            let line =
                "{\"jobs\":[],\"machine\":\"m\",\"regressions\":[],\"series\":[],\"step\":0}\n";
            let tree = "{jobs=[],machine=|m|,regressions=[],series=[],step=#0,}";
            has_forms(alloc, &pages, &("", line, tree))
        }
        None => false,
    }
}

#[test]
fn each_kind_of_line_stands_in_its_columns(rt: HostRuntime) {
    assert!(rt; is_full(rt.alloc()));
    assert!(rt; is_empty(rt.alloc()));
}

/// The lines of JSON that the scripts of `tracker_top`'s tests print, and what is read of each.
const PRINTED: [(&str, &str); 6] = [
    (
        "{\"jobs\":[],\"machine\":\"m1\",\"regressions\":[],\"series\":[{\"centre\":\"10\",\"changes\":1,\"metric\":\"B/op\",\"positions\":4,\"samples\":4,\"test\":\"X\"}],\"step\":11}\n",
        "{jobs=[],machine=|m1|,regressions=[],series=[{centre=|10|,changes=#1,metric=|B/op|,positions=#4,samples=#4,test=|X|,},],step=#11,}",
    ),
    (
        "{\"jobs\":[],\"machine\":\"m1\",\"regressions\":[{\"after\":\"c\",\"before\":\"b\",\"metric\":\"B/op\",\"number\":1,\"state\":\"fixed\",\"test\":\"X\"}],\"series\":[{\"centre\":\"10\",\"changes\":1,\"metric\":\"B/op\",\"positions\":4,\"samples\":4,\"test\":\"X\"}],\"step\":15}\n",
        "{jobs=[],machine=|m1|,regressions=[{after=|c|,before=|b|,metric=|B/op|,number=#1,state=|fixed|,test=|X|,},],series=[{centre=|10|,changes=#1,metric=|B/op|,positions=#4,samples=#4,test=|X|,},],step=#15,}",
    ),
    (
        "{\"jobs\":[{\"job\":1,\"outcome\":\"found c5 c6\",\"questions\":3,\"range\":8},{\"job\":2,\"outcome\":\"found c0 c1\",\"questions\":0,\"range\":1},{\"job\":3,\"outcome\":\"undecided c4 125\",\"questions\":0,\"range\":8},{\"job\":4,\"outcome\":\"asks c4\",\"questions\":0,\"range\":8}],\"machine\":\"m\",\"regressions\":[],\"series\":[],\"step\":17}\n",
        "{jobs=[{job=#1,outcome=|found c5 c6|,questions=#3,range=#8,},{job=#2,outcome=|found c0 c1|,questions=#0,range=#1,},{job=#3,outcome=|undecided c4 125|,questions=#0,range=#8,},{job=#4,outcome=|asks c4|,questions=#0,range=#8,},],machine=|m|,regressions=[],series=[],step=#17,}",
    ),
    (
        "{\"jobs\":[{\"job\":1,\"outcome\":\"asks d%20e\",\"questions\":0,\"range\":2}],\"machine\":\"m\\\"\\\\\\u0001é%\",\"regressions\":[{\"after\":\"d e\",\"before\":\"c\\\"\\u001f\\\\\",\"metric\":\"B/op\",\"number\":1,\"state\":\"detected\",\"test\":\"Q\\\"\\\\\x7fé€/a%b\"}],\"series\":[{\"centre\":\"9\",\"changes\":1,\"metric\":\"B/op\",\"positions\":2,\"samples\":2,\"test\":\"Q\\\"\\\\\x7fé€/a%b\"}],\"step\":10}\n",
        "{jobs=[{job=#1,outcome=|asks d%20e|,questions=#0,range=#2,},],machine=|m\"\\\x01é%|,regressions=[{after=|d e|,before=|c\"\x1f\\|,metric=|B/op|,number=#1,state=|detected|,test=|Q\"\\\x7fé€/a%b|,},],series=[{centre=|9|,changes=#1,metric=|B/op|,positions=#2,samples=#2,test=|Q\"\\\x7fé€/a%b|,},],step=#10,}",
    ),
    (
        "{\"jobs\":[],\"machine\":\"m\",\"regressions\":[],\"series\":[],\"step\":0}\n",
        "{jobs=[],machine=|m|,regressions=[],series=[],step=#0,}",
    ),
    (
        "{\"jobs\":[],\"machine\":\"m\",\"regressions\":[],\"series\":[{\"centre\":\"3.5000\",\"changes\":0,\"metric\":\"x\",\"positions\":0,\"samples\":0,\"test\":\"A\"},{\"centre\":null,\"changes\":null,\"metric\":\"y\",\"positions\":0,\"samples\":0,\"test\":\"A\"},{\"centre\":null,\"changes\":null,\"metric\":\"x\",\"positions\":0,\"samples\":0,\"test\":\"AB\"},{\"centre\":null,\"changes\":0,\"metric\":\"x\",\"positions\":0,\"samples\":0,\"test\":\"B\"}],\"step\":5}\n",
        "{jobs=[],machine=|m|,regressions=[],series=[{centre=|3.5000|,changes=#0,metric=|x|,positions=#0,samples=#0,test=|A|,},{centre=null,changes=null,metric=|y|,positions=#0,samples=#0,test=|A|,},{centre=null,changes=null,metric=|x|,positions=#0,samples=#0,test=|AB|,},{centre=null,changes=#0,metric=|x|,positions=#0,samples=#0,test=|B|,},],step=#5,}",
    ),
];

#[test]
fn reports_of_scripts_are_read(rt: HostRuntime) {
    for (line, tree) in &PRINTED {
        assert!(rt; is_answer(rt.alloc(), line.as_bytes(), tree), "{line}");
    }
}
