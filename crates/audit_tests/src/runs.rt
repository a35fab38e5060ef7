//! The files of runs that fit together.
use play_audit::{AuditStop, Bytes, Heard, Verdict};
use std::alloc::Global;

// A script and its transcript.
pub type Texts = (&'static [u8], &'static [u8]);

// The text of the journals, the scripts with their transcripts, and what is answered.
#[derive(Clone, Copy)]
pub struct Row {
    pub journal: &'static [u8],
    pub heard: &'static [Texts],
    pub wanted: Wanted,
}

// That the files fit, with so many machines, entries and requests; that this line of the journals doesn't, or this request of
// this script; or that this script is cut off, at this place.
#[derive(Clone, Copy)]
pub enum Wanted {
    Shown(u64, u64, u64),
    Line(u64),
    Request(u64, u64),
    CutOff(u64, u64),
}

impl Wanted {
    pub fn answer(self) -> Result<Verdict, AuditStop> {
        match self {
            Wanted::Shown(machines, steps, requests) => Ok(Verdict::Shown {
                machines,
                steps,
                requests,
            }),
            Wanted::Line(line) => Ok(Verdict::JournalLine(line)),
            Wanted::Request(script, request) => Ok(Verdict::Request { script, request }),
            Wanted::CutOff(script, offset) => Err(AuditStop::CutOff { script, offset }),
        }
    }
}

pub const PUBLISHED: &[u8] =
    b"machine m1 steps 11\n1 s1 commit 10 a\n2 s1 commit 20 b\n3 s1 commit 30 c\n4 s1 commit 40 d\n5 s1 tune B/op 50 1\n6 s1 accept r1 10 1 X B/op 0\n7 s1 accept r2 20 1 X B/op 0\n8 s1 accept r4 40 1 X B/op 10\n9 s1 publish X B/op 8 0 50 1 2\n10 s1 accept r3 30 1 X B/op 10\n11 s1 publish X B/op 10 8 50 1 2\n";

pub const SEGMENTING: &[u8] =
    b"commit m1 10 a\ncommit m1 20 b\ncommit m1 30 c\ncommit m1 40 d\ntune m1 B/op 50\nsubmit go m1 a r1 20\nBenchmarkX 1 0 B/op\nsubmit go m1 b r2 20\nBenchmarkX 1 0 B/op\nsubmit go m1 d r4 21\nBenchmarkX 1 10 B/op\nsegment m1 X B/op\nsubmit go m1 c r3 21\nBenchmarkX 1 10 B/op\nsegment m1 X B/op\nchanges m1 X B/op\nverify m1 X B/op\nruns m1\nreport m1 json\n";

pub const SEGMENTED: Texts = (
    SEGMENTING,
    b"@1 commit 10 a\n@2 commit 20 b\n@3 commit 30 c\n@4 commit 40 d\n@5 tuned B/op 50\n@6 accepted r1 samples 1 ignored 0\n@7 accepted r2 samples 1 ignored 0\n@8 accepted r4 samples 1 ignored 0\n@9 segmented version 8 base 0 points 3 cuts 1 redone 3 total 50\n@10 accepted r3 samples 1 ignored 0\n@11 segmented version 10 base 8 points 4 cuts 1 redone 2 total 50\n@11 changes version 10 lines 1\nb c 0 10 regression\n@11 verified version 10 lines 7\npoints 4\npenalty 50\ncuts 2\ntotal 50\nleast -50 0 0 50 50\nback 0 0 0 2 2\npruned 0 4 0 0 0\n@11 runs lines 4\nr1 a 1 live\nr2 b 1 live\nr4 d 1 live\nr3 c 1 live\n@11 report lines 1\n{\"jobs\":[],\"machine\":\"m1\",\"regressions\":[],\"series\":[{\"centre\":\"10\",\"changes\":1,\"metric\":\"B/op\",\"positions\":4,\"samples\":4,\"test\":\"X\"}],\"step\":11}\n",
);

pub const RUNS: [Row; 4] = [
    // One script: segmentations, changes, a certificate and a report.
    Row {
        journal: PUBLISHED,
        heard: &[SEGMENTED],
        wanted: Wanted::Shown(1, 11, 15),
    },
    // Three scripts and a worker on two machines: bases, a publication that came too late, a regression.
    Row {
        journal: b"machine m steps 13\n1 s1 commit 1 a\n2 s1 commit 2 b\n3 s2 commit 3 c\n4 s1 accept r1 1 1 X B/op 0\n5 s1 accept r2 2 1 X B/op 10\n6 s1 tune B/op 20 1\n7 s1 publish X B/op 6 0 20 1 1\n8 s2 accept r3 3 1 X B/op 10\n9 r1 publish X B/op 8 6 20 1 1\n10 s2 publish X B/op 8 6 20 1 1\n11 s1 raise X B/op 1 2\n12 s1 move 1 active\n13 s3 retract r1\nmachine n steps 3\n1 s2 commit 1 a\n2 s2 accept q1 1 2 X B/op 5 X B/op 7\n3 s3 publish X B/op 2 0 2 0\n",
        heard: &[
            (
                b"commit m 1 a\ncommit m 2 b\nsubmit go m a r1 20\nBenchmarkX 1 0 B/op\nsubmit go m b r2 21\nBenchmarkX 1 10 B/op\ntune m B/op 20\nsegment m X B/op\nverify m X B/op\nchanges m X B/op\nregress m X B/op 1\nstate m 1 active\nruns o\n",
                b"@1 commit 1 a\n@2 commit 2 b\n@4 accepted r1 samples 1 ignored 0\n@5 accepted r2 samples 1 ignored 0\n@6 tuned B/op 20\n@7 segmented version 6 base 0 points 2 cuts 1 redone 2 total 20\n@9 verified version 8 lines 7\npoints 3\npenalty 20\ncuts 1\ntotal 20\nleast -20 0 20 20\nback 0 0 1 1\npruned 2 0 0 0\n@10 changes version 8 lines 1\na b 0 10 regression\n@11 regression 1 detected\n@12 regression 1 detected active\n@0 E03 UnknownMachine\n",
            ),
            (
                b"commit m 3 c\ncommit n 1 a\nsubmit go n a q1 40\nBenchmarkX 1 5 B/op\nBenchmarkX 1 7 B/op\nsubmit go m c r3 21\nBenchmarkX 1 10 B/op\nsegment m X B/op\nruns n\nreport n json\n",
                b"@3 commit 3 c\n@1 commit 1 a\n@2 accepted q1 samples 2 ignored 0\n@8 accepted r3 samples 1 ignored 0\n@10 segmented version 8 base 6 points 3 cuts 1 redone 1 total 20\n@3 runs lines 1\nq1 a 2 live\n@3 report lines 1\n{\"jobs\":[],\"machine\":\"n\",\"regressions\":[],\"series\":[{\"centre\":\"6\",\"changes\":0,\"metric\":\"B/op\",\"positions\":1,\"samples\":2,\"test\":\"X\"}],\"step\":3}\n",
            ),
            (
                b"segment m X B/op\nretract m r1\nsegment n X B/op\n",
                b"@10 E24 Stale 8\n@13 retracted r1\n@3 segmented version 2 base 0 points 1 cuts 0 redone 1 total 2\n",
            ),
        ],
        wanted: Wanted::Shown(2, 16, 21),
    },
    // Two scripts over kept commits, and workers that bisect: a question that was given up, a job resumed, one undecided.
    Row {
        journal: b"machine m steps 12\n1 k commit 0 c0\n2 k commit 1 c1\n3 k commit 2 c2\n4 k commit 3 c3\n5 k commit 4 c4\n6 s1 begin 0 4\n7 b1 answer 1 2 0\n8 b2 giveup 1 3\n9 s2 begin 2 4\n10 s2 answer 2 1 1\n11 s1 begin 0 2\n12 b1 answer 3 1 125\n",
        heard: &[
            (
                b"bisect m c0 c4\njob m 1\nbisect m c0 c2\njob m 3\nanswer m 3 c1 0\n",
                b"@6 job 1 range 4 questions 0 asks c2\n@8 job 1 range 4 questions 1 faulted c3\n@11 job 3 range 2 questions 0 asks c1\n@12 job 3 range 2 questions 0 undecided c1 125\n@12 E25 JobClosed undecided c1 125\n",
            ),
            (
                b"commit m 0 c0\nresume m 1\nresume m 1\nanswer m 2 c3 1\nreport m json\n",
                b"@6 duplicate @1\n@7 E29 JobOpen c3\n@9 job 2 range 2 questions 0 asks c3\n@10 job 2 range 2 questions 1 found c2 c3\n@12 report lines 1\n{\"jobs\":[{\"job\":1,\"outcome\":\"faulted c3\",\"questions\":1,\"range\":4},{\"job\":2,\"outcome\":\"found c2 c3\",\"questions\":1,\"range\":2},{\"job\":3,\"outcome\":\"undecided c1 125\",\"questions\":0,\"range\":2}],\"machine\":\"m\",\"regressions\":[],\"series\":[],\"step\":12}\n",
            ),
        ],
        wanted: Wanted::Shown(1, 12, 10),
    },
    // A run of `examples/play`.
    Row {
        journal: b"machine bot steps 12\n1 s1 commit 417 7d20aa\n2 s1 accept night-6 417 1 example.com/parse#Tokens-8 ns/op 4110000\n3 s1 commit 418 e01c44\n4 s1 accept night-7 418 1 example.com/parse#Tokens-8 ns/op 4090000\n5 s2 commit 404 30d6fb\n6 s2 commit 405 b81c5e\n7 s2 commit 406 4f9a02\n8 s2 commit 407 c66d38\n9 s2 commit 408 09e7b4\n10 s2 begin 404 408\n11 b1 answer 1 2 0\n12 b1 answer 1 3 1\n",
        heard: &[
            (
                b"# Two nights of the machine `bot`: each brings a commit, and a run of one benchmark at it.\ncommit bot 417 7d20aa\nsubmit go bot 7d20aa night-6 77\ngoos: linux\npkg: example.com/parse\nBenchmarkTokens-8 \t 3059 \t 411 ns/op\nPASS\ncommit bot 418 e01c44\nsubmit go bot e01c44 night-7 77\ngoos: linux\npkg: example.com/parse\nBenchmarkTokens-8 \t 3059 \t 409 ns/op\nPASS\nruns bot\n",
                b"@1 commit 417 7d20aa\n@2 accepted night-6 samples 1 ignored 0\n@3 commit 418 e01c44\n@4 accepted night-7 samples 1 ignored 0\n@4 runs lines 2\nnight-6 7d20aa 1 live\nnight-7 e01c44 1 live\n",
            ),
            (
                b"# A change that was found last week lies between the first and the last of these commits. The bisection is answered by\n# the workers of the run.\ncommit bot 404 30d6fb\ncommit bot 405 b81c5e\ncommit bot 406 4f9a02\ncommit bot 407 c66d38\ncommit bot 408 09e7b4\nbisect bot 30d6fb 09e7b4\n",
                b"@5 commit 404 30d6fb\n@6 commit 405 b81c5e\n@7 commit 406 4f9a02\n@8 commit 407 c66d38\n@9 commit 408 09e7b4\n@10 job 1 range 4 questions 0 asks 4f9a02\n",
            ),
        ],
        wanted: Wanted::Shown(1, 12, 11),
    },
];

// The scripts of a row with their transcripts; none where there is no memory.
pub fn heard_of(alloc: Global, row: &Row) -> Option<Vec<Heard>> {
    let mut heard = Vec::new(alloc);
    for texts in row.heard {
        heard.push(texts_of(alloc, texts.0, texts.1)?).ok()?;
    }
    Some(heard)
}

fn texts_of(alloc: Global, script: &[u8], transcript: &[u8]) -> Option<Heard> {
    let script = Bytes::of(Vec::from_slice(alloc, script).ok()?);
    let transcript = Bytes::of(Vec::from_slice(alloc, transcript).ok()?);
    Some(Heard { script, transcript })
}
