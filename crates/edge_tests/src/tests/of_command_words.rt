//! Words that are a command, and words that are none, with ample memory.
use command_words::{
    AuditPlan, Command, CutPlan, HuntPlan, NoMemory, PathPlan, PlayPlan, command_of,
};
use std::alloc::Global;

// Words with a space between two, and how the command that they are is told. Beside a space at an end, or a second one, is an
// empty word.
type Row = (&'static str, &'static str);

const TOLD: [Row; 51] = [
    ("cut 50", "cut 50 1 squares"),
    ("cut 0", "cut 0 1 squares"),
    ("cut -- 50", "cut 50 1 squares"),
    ("cut 50 --", "cut 50 1 squares"),
    (
        "cut 1000000000000000000000000000000000000",
        "cut 1000000000000000000000000000000000000 1 squares",
    ),
    ("cut 50 --least 2", "cut 50 2 squares"),
    ("cut --least=64 50", "cut 50 64 squares"),
    ("cut 5 --least 65", "none"),
    ("cut 5 --least 0", "none"),
    ("cut 5 --least 02", "none"),
    ("cut 5 --least", "none"),
    ("cut --least 2", "none"),
    ("apply", "apply"),
    ("apply --", "apply"),
    ("apply --store n", "apply n"),
    ("apply --store=n", "apply n"),
    ("apply --store=-x", "apply -x"),
    ("apply --store -", "apply -"),
    ("apply --store=a=b", "apply a=b"),
    ("gen 7", "gen 7"),
    ("trial 18446744073709551615", "trial 18446744073709551615"),
    ("", "none"),
    ("Cut 5", "none"),
    ("cut", "none"),
    ("cuts 1", "none"),
    ("cut ", "none"),
    ("cut 5 6", "none"),
    ("cut -5", "none"),
    ("cut 05", "none"),
    ("cut +5", "none"),
    ("cut 1e3", "none"),
    ("cut 1000000000000000000000000000000000001", "none"),
    ("cut --help", "none"),
    ("cut -h", "none"),
    ("cut -V", "none"),
    ("cut --version", "none"),
    ("apply x", "none"),
    ("apply --store", "none"),
    ("apply --store=", "none"),
    ("apply --store ", "none"),
    ("apply --store -x", "none"),
    ("apply --store -- x", "none"),
    ("apply --store a a", "none"),
    ("apply --store a --store b", "none"),
    ("apply --sto a", "none"),
    ("apply -s a", "none"),
    ("gen", "none"),
    ("gen 18446744073709551616", "none"),
    ("trial x", "none"),
    ("trial 07", "none"),
    ("gen --store n 7", "none"),
];

const PLAYED: [Row; 12] = [
    ("play s1", "play  - 0 0 - s1"),
    ("play --machines m s1 s2", "play m, - 0 0 - s1 s2"),
    (
        "play --machines m --bisect 1 --test sh s1",
        "play m, - 0 1 sh s1",
    ),
    (
        "play s1 --store=t --recompute=8 s2 --machines=a,b%2Cc",
        "play a,b,c, t 8 0 - s1 s2",
    ),
    ("play 1 2 3 4 5 6 7 8", "play  - 0 0 - 1 2 3 4 5 6 7 8"),
    (
        "play --machines=1,2,3,4,5,6,7,8,9,10,11,12,13,14,15,16 s",
        "play 1,2,3,4,5,6,7,8,9,10,11,12,13,14,15,16, - 0 0 - s",
    ),
    ("play -- -s --x", "play  - 0 0 - -s --x"),
    ("play --test sh s1", "play  - 0 0 sh s1"),
    ("play --bisect 0 s1", "play  - 0 0 - s1"),
    ("play s1.out", "play  - 0 0 - s1.out"),
    ("play s.out.out s", "play  - 0 0 - s.out.out s"),
    ("play -", "play  - 0 0 - -"),
];

const REFUSED: [Row; 35] = [
    ("play", "none"),
    ("play --machines m", "none"),
    ("play ", "none"),
    ("play s1 ", "none"),
    ("play s1 s1", "none"),
    ("play s1 s2 s1", "none"),
    ("play s1 s1.out", "none"),
    ("play s1.out s1", "none"),
    ("play 1 2 3 4 5 6 7 8 9", "none"),
    ("play --machines  s1", "none"),
    ("play --machines= s1", "none"),
    ("play --machines a, s1", "none"),
    ("play --machines ,a s1", "none"),
    ("play --machines a,,b s1", "none"),
    ("play --machines a,a s1", "none"),
    ("play --machines a,%61 s1", "none"),
    ("play --machines a%2 s1", "none"),
    ("play --machines %ff s1", "none"),
    (
        "play --machines=1,2,3,4,5,6,7,8,9,10,11,12,13,14,15,16,17 s",
        "none",
    ),
    ("play --store  s1", "none"),
    ("play --store= s1", "none"),
    ("play --recompute 9 s1", "none"),
    ("play --recompute -1 s1", "none"),
    ("play --recompute 08 s1", "none"),
    ("play --recompute= s1", "none"),
    ("play --recompute s1", "none"),
    ("play --bisect 1 s1", "none"),
    ("play --bisect 9 --test t s1", "none"),
    ("play --bisect x --test t s1", "none"),
    ("play --test  s1", "none"),
    ("play --bisect 1 --test= s1", "none"),
    ("play -x s1", "none"),
    ("play --help", "none"),
    ("play --test a --test b s1", "none"),
    ("play --recompute 1 --recompute 1 s1", "none"),
];

const DISTANCES: [Row; 12] = [
    ("cut 5 --absolute", "cut 5 1 distances"),
    ("cut --absolute 5", "cut 5 1 distances"),
    ("cut --absolute --least=3 5", "cut 5 3 distances"),
    ("cut --absolute -- 5", "cut 5 1 distances"),
    ("cut 5 --least 1", "cut 5 1 squares"),
    ("cut --absolute", "none"),
    ("cut --absolute=true 5", "none"),
    ("cut 5 --absolute --absolute", "none"),
    ("cut 5 --abs", "none"),
    ("cut 5 --least=", "none"),
    ("cut 5 --least=2 --least=2", "none"),
    ("gen 7 --absolute", "none"),
];

const RANGES: [Row; 13] = [
    ("path 0 120", "path 0 120"),
    ("path 8 8", "path 8 8"),
    ("path -- 5 9", "path 5 9"),
    (
        "path 0 1000000000000000000000000000000000000",
        "path 0 1000000000000000000000000000000000000",
    ),
    ("path 9 5", "none"),
    ("path 0 1000000000000000000000000000000000001", "none"),
    ("path", "none"),
    ("path 1", "none"),
    ("path 1 2 3", "none"),
    ("path 1 02", "none"),
    ("path 1 -2", "none"),
    ("path --least=2 1 2", "none"),
    ("path --absolute 1 2", "none"),
];

const HUNTS: [Row; 14] = [
    ("hunt 3 --test sh", "hunt 3 sh"),
    ("hunt --test=-x 8", "hunt 8 -x"),
    ("hunt 1 --test -", "hunt 1 -"),
    ("hunt", "none"),
    ("hunt 3", "none"),
    ("hunt --test sh", "none"),
    ("hunt 0 --test sh", "none"),
    ("hunt 9 --test sh", "none"),
    ("hunt 03 --test sh", "none"),
    ("hunt 3 --test", "none"),
    ("hunt 3 --test ", "none"),
    ("hunt 3 --test=", "none"),
    ("hunt 3 4 --test sh", "none"),
    ("hunt 3 --test a --test b", "none"),
];

const AUDITS: [Row; 17] = [
    ("audit j s1", "audit j s1"),
    ("audit j s1 s2", "audit j s1 s2"),
    ("audit -- -j --s", "audit -j --s"),
    ("audit j.out s1 --", "audit j.out s1"),
    ("audit s1.out.out s1", "audit s1.out.out s1"),
    ("audit j 1 2 3 4 5 6 7 8", "audit j 1 2 3 4 5 6 7 8"),
    ("audit j 1 2 3 4 5 6 7 8 9", "none"),
    ("audit", "none"),
    ("audit j", "none"),
    ("audit  s1", "none"),
    ("audit j ", "none"),
    ("audit s1 s1", "none"),
    ("audit s2.out s1 s2", "none"),
    ("audit j s1 s1", "none"),
    ("audit j s1.out s1", "none"),
    ("audit --store t j s1", "none"),
    ("audit --help", "none"),
];

// What each table shows, and its rows.
const TABLES: [(&str, &[Row]); 7] = [
    ("words are commands or none", &TOLD),
    ("words of play ask for a run", &PLAYED),
    ("words of play are none where they break a rule", &REFUSED),
    ("words of cut ask for distances", &DISTANCES),
    ("words of path ask for a range", &RANGES),
    ("words of hunt ask for a search", &HUNTS),
    ("words of audit name files", &AUDITS),
];

#[test]
fn words_are_commands_or_none(rt: HostRuntime) {
    for (shown, rows) in &TABLES {
        for (words, told) in *rows {
            assert!(rt; is_read(rt.alloc(), words, told), "{shown}: {words}");
        }
    }
    assert!(rt; are_told(rt.alloc(), &[], "none"));
}

// Whether the words of a text are the command that is told so.
fn is_read(alloc: Global, text: &str, told: &str) -> bool {
    match words_of(alloc, text) {
        Ok(words) => are_told(alloc, &words, told),
        Err(_) => false,
    }
}

fn words_of(alloc: Global, text: &str) -> Result<Vec<String>, NoMemory> {
    let mut words = Vec::new(alloc);
    for word in text.split(' ') {
        words.push(String::from_str(alloc, word)?)?;
    }
    Ok(words)
}

// Whether the words are the command that is told so.
fn are_told(alloc: Global, words: &[String], told: &str) -> bool {
    match command_of(alloc, words) {
        Ok(Some(command)) => is_told(alloc, &command, told),
        Ok(None) => told == "none",
        Err(_) => false,
    }
}

// Whether the command is told so: its name, then what it has.
fn is_told(alloc: Global, command: &Command<'_>, told: &str) -> bool {
    match command {
        Command::Cut(cut) => is_text(told, "cut ", cut_text(alloc, cut)),
        Command::Apply(None) => told == "apply",
        Command::Apply(Some(store)) => told.strip_prefix("apply ") == Some(store.as_str()),
        Command::Gen(number) => told
            .strip_prefix("gen ")
            .is_some_and(|text| text.parse::<u64>() == Ok(*number)),
        Command::Trial(number) => told
            .strip_prefix("trial ")
            .is_some_and(|text| text.parse::<u64>() == Ok(*number)),
        Command::Play(plan) => is_text(told, "play ", plan_text(alloc, plan)),
        Command::Path(path) => is_text(told, "path ", path_text(alloc, path)),
        Command::Hunt(hunt) => is_text(told, "hunt ", hunt_text(alloc, hunt)),
        Command::Audit(audit) => is_text(told, "audit ", audit_text(alloc, audit)),
    }
}

// Whether what is told is the name with the text behind it.
fn is_text(told: &str, name: &str, text: Result<String, NoMemory>) -> bool {
    match text {
        Ok(text) => told.strip_prefix(name) == Some(text.as_str()),
        Err(_) => false,
    }
}

// The penalty, the least length, and what is summed.
fn cut_text(alloc: Global, cut: &CutPlan) -> Result<String, NoMemory> {
    let (penalty, least) = (cut.penalty, cut.least);
    let summed = if cut.absolute { "distances" } else { "squares" };
    format!(in alloc; "{penalty} {least} {summed}")
}

// The least and the greatest penalty.
fn path_text(alloc: Global, path: &PathPlan) -> Result<String, NoMemory> {
    let (low, high) = (path.low, path.high);
    format!(in alloc; "{low} {high}")
}

// How many commits a round asks, and the word of the test.
fn hunt_text(alloc: Global, hunt: &HuntPlan<'_>) -> Result<String, NoMemory> {
    let (width, test) = (hunt.width, hunt.test.as_str());
    format!(in alloc; "{width} {test}")
}

// The file with the journals, and the scripts.
fn audit_text(alloc: Global, audit: &AuditPlan<'_>) -> Result<String, NoMemory> {
    let mut text = String::from_str(alloc, audit.journal())?;
    for script in audit.scripts() {
        text.push_str(" ")?;
        text.push_str(script)?;
    }
    Ok(text)
}

// The machines with a comma behind each, the store, the numbers of workers, the word of the test, and the scripts.
fn plan_text(alloc: Global, plan: &PlayPlan<'_>) -> Result<String, NoMemory> {
    let mut text = String::new(alloc);
    for machine in plan.machines() {
        text.push_str(machine.as_str())?;
        text.push_str(",")?;
    }
    let store = plan.store().unwrap_or("-");
    let (recompute, bisect) = (plan.recompute(), plan.bisect());
    let test = plan.test().unwrap_or("-");
    text.push_str(&format!(in alloc; " {store} {recompute} {bisect} {test}")?)?;
    for script in plan.scripts() {
        text.push_str(" ")?;
        text.push_str(script)?;
    }
    Ok(text)
}
