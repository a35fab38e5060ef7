//! Replies about regressions, bisections and reports.
use line_text::Name;
use regression_state::State;
use reply_text::put_reply;
use report_model::{JobLines, Pages, RegressionLines, SeriesLines, Told};
use request_model::{Answer, Boxed, Refusal, Reply};
use std::alloc::Global;

fn named(alloc: Global, text: &str) -> Option<Name> {
    Name::of_text(alloc, text.as_bytes()).ok()
}

// Refusals by their number, and how they are told behind three entries.
const REFUSED: [(u64, &str); 8] = [
    (15, "@3 E15 NoSuchChange 2\n"),
    (16, "@3 E16 UnknownRegression\n"),
    (17, "@3 E17 IllegalMove fixed not_to_be_fixed\n"),
    (18, "@3 E18 UnknownJob\n"),
    (19, "@3 E19 NotAsked c%205\n"),
    (20, "@3 E20 BadRange\n"),
    (25, "@3 E25 JobClosed undecided c%205 125\n"),
    (29, "@3 E29 JobOpen c%205\n"),
];

// The refusal of a number, of the commit `c 5` where it names one.
fn refusal(commit: Name, number: u64) -> Refusal {
    match number {
        15 => Refusal::NoSuchChange(2),
        16 => Refusal::UnknownRegression,
        17 => Refusal::IllegalMove {
            from: State::Fixed,
            to: State::NotToBeFixed,
        },
        18 => Refusal::UnknownJob,
        19 => Refusal::NotAsked(commit),
        20 => Refusal::BadRange,
        25 => Refusal::JobClosed(Told::Undecided {
            commit,
            status: 125,
        }),
        _ => Refusal::JobOpen(commit),
    }
}

// The same of answers.
const ANSWERED: [(u64, &str); 5] = [
    (0, "@3 regression 4 detected\n"),
    (1, "@3 regression 4 detected staged\n"),
    (2, "@3 job 4 range 10 questions 2 faulted c%205\n"),
    (3, "@3 report lines 0\n"),
    (
        4,
        "@3 report lines 1\n{\"jobs\":[],\"machine\":\"c 5\",\"regressions\":[],\"series\":[],\"step\":3}\n",
    ),
];

// A report of nothing.
fn pages(alloc: Global, machine: Name, json: bool) -> Option<Answer> {
    let pages = Pages {
        machine,
        step: 3,
        json,
        series: SeriesLines::new(alloc),
        regressions: RegressionLines::new(alloc),
        jobs: JobLines::new(alloc),
    };
    let pages = Boxed::new(alloc, pages).ok()?;
    Some(Answer::Report { pages })
}

// The answer at a place of the table.
fn answer(alloc: Global, name: Name, place: u64) -> Option<Answer> {
    let told = match place {
        0 => Answer::Raised { regression: 4 },
        1 => Answer::Moved {
            regression: 4,
            from: State::Detected,
            to: State::Staged,
        },
        2 => Answer::Job {
            job: 4,
            range: 10,
            questions: 2,
            outcome: Told::Faulted(name),
        },
        3 => return pages(alloc, name, false),
        _ => return pages(alloc, name, true),
    };
    Some(told)
}

// Whether an answer is told so, behind three entries.
fn is_told(alloc: Global, answer: Answer, wanted: &str) -> bool {
    let reply = Reply { step: 3, answer };
    let mut out = Vec::new(alloc);
    put_reply(alloc, &mut out, &reply).is_ok() && out.as_slice() == wanted.as_bytes()
}

fn is_refused(alloc: Global, number: u64, wanted: &str) -> bool {
    match named(alloc, "c 5") {
        Some(name) => is_told(alloc, Answer::Refused(refusal(name, number)), wanted),
        None => false,
    }
}

fn is_answered(alloc: Global, place: u64, wanted: &str) -> bool {
    let Some(name) = named(alloc, "c 5") else {
        return false;
    };
    match answer(alloc, name, place) {
        Some(answer) => is_told(alloc, answer, wanted),
        None => false,
    }
}

#[test]
fn replies_about_what_was_found(rt: HostRuntime) {
    for (number, wanted) in &REFUSED {
        assert!(rt; is_refused(rt.alloc(), *number, wanted), "{wanted}");
    }
    for (place, wanted) in &ANSWERED {
        assert!(rt; is_answered(rt.alloc(), *place, wanted), "{wanted}");
    }
}
