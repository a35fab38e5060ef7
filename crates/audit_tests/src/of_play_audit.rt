//! Files of shared runs, and the verdicts on them: by the definition, that they fit together, or the first line or request that
//! doesn't fit.
ghost use Rattle.std.specs.Prelude.{◌≡◌, ◌≤◌, ◌<◌, ◌^◌, All, length, true};
ghost use Rattle.audit_model.specs.declared.heard.Heard.{Heard as AHeard};

use crate::runs::{PUBLISHED, RUNS, Row, SEGMENTED, SEGMENTING, Texts, Wanted, heard_of};
use play_audit::{Heard, audit, plain_audit};
use std::alloc::Global;
use std::test::Fail;

const ANEW: &[u8] =
    b"machine m1 steps 11\n1 s1 commit 10 a\n2 s1 commit 20 b\n3 s1 commit 30 c\n4 s1 commit 40 d\n5 s1 tune B/op 50 1\n6 s1 accept r1 10 1 X B/op 0\n7 s1 accept r2 20 1 X B/op 0\n8 s1 accept r4 40 1 X B/op 10\n9 s1 publish X B/op 8 0 50 1 2\n10 s1 accept r3 30 1 X B/op 10\n11 s1 publish X B/op 10 0 50 1 2\n";

const BESIDE: &[u8] =
    b"machine m1 steps 12\n1 s1 commit 10 a\n2 s1 commit 20 b\n3 s1 commit 30 c\n4 s1 commit 40 d\n5 s1 tune B/op 50 1\n6 s1 accept r1 10 1 X B/op 0\n7 s1 accept r2 20 1 X B/op 0\n8 s1 accept r4 40 1 X B/op 10\n9 s2 accept r3 30 1 X B/op 10\n10 s1 publish X B/op 8 0 50 1 2\n11 s2 tune B/op 50 1\n12 s2 publish X B/op 11 0 50 1 2\n";

const FIRST_SCRIPT: &[u8] =
    b"commit m1 10 a\ncommit m1 20 b\ncommit m1 30 c\ncommit m1 40 d\ntune m1 B/op 50\nsubmit go m1 a r1 20\nBenchmarkX 1 0 B/op\nsubmit go m1 b r2 20\nBenchmarkX 1 0 B/op\nsubmit go m1 d r4 21\nBenchmarkX 1 10 B/op\nsegment m1 X B/op\nsegment m1 X B/op\n";

const FIRST: Texts = (
    FIRST_SCRIPT,
    b"@1 commit 10 a\n@2 commit 20 b\n@3 commit 30 c\n@4 commit 40 d\n@5 tuned B/op 50\n@6 accepted r1 samples 1 ignored 0\n@7 accepted r2 samples 1 ignored 0\n@8 accepted r4 samples 1 ignored 0\n@10 segmented version 8 base 0 points 3 cuts 1 redone 3 total 50\n@12 E24 Stale 11\n",
);

const SECOND_SCRIPT: &[u8] =
    b"submit go m1 c r3 21\nBenchmarkX 1 10 B/op\ntune m1 B/op 50\nsegment m1 X B/op\n";

const SECOND: Texts = (
    SECOND_SCRIPT,
    b"@9 accepted r3 samples 1 ignored 0\n@11 tuned B/op 50\n@12 segmented version 11 base 0 points 4 cuts 1 redone 4 total 50\n",
);

const BISECT: Texts = (
    b"commit m 0 c0\ncommit m 1 c1\ncommit m 2 c2\nbisect m c0 c2\n",
    b"@1 commit 0 c0\n@2 commit 1 c1\n@3 commit 2 c2\n@4 job 1 range 2 questions 0 asks c1\n",
);

// A commit, and the same where it came before.
const COMMITTED: Texts = (b"commit m 1 a\n", b"@1 commit 1 a\n");

const COMMITTED_BEFORE: Texts = (b"commit m 1 a\n", b"@1 duplicate @1\n");

const REPLIES: [Row; 13] = [
    // One commit.
    Row {
        journal: b"machine m1 steps 1\n1 s1 commit 10 a\n",
        heard: &[(b"commit m1 10 a\n", b"@1 commit 10 a\n")],
        wanted: Wanted::Shown(1, 1, 1),
    },
    // Another name.
    Row {
        journal: b"machine m1 steps 1\n1 s1 commit 10 a\n",
        heard: &[(b"commit m1 10 a\n", b"@1 commit 10 b\n")],
        wanted: Wanted::Request(1, 1),
    },
    // One entry for two requests.
    Row {
        journal: b"machine m steps 1\n1 s1 tune B/op 5 1\n",
        heard: &[(
            b"tune m B/op 5\ntune m B/op 5\n",
            b"@1 tuned B/op 5\n@1 tuned B/op 5\n",
        )],
        wanted: Wanted::Request(1, 2),
    },
    // A list with a run that there is not.
    Row {
        journal: b"machine m steps 1\n1 s1 commit 1 a\n",
        heard: &[(
            b"commit m 1 a\nruns m\n",
            b"@1 commit 1 a\n@1 runs lines 1\nr a 1 live\n",
        )],
        wanted: Wanted::Request(1, 2),
    },
    // Fewer entries than were known.
    Row {
        journal: b"machine m steps 2\n1 s1 commit 1 a\n2 s1 commit 2 b\n",
        heard: &[(
            b"commit m 1 a\ncommit m 2 b\nruns m\n",
            b"@1 commit 1 a\n@2 commit 2 b\n@1 runs lines 0\n",
        )],
        wanted: Wanted::Request(1, 3),
    },
    // The entry of a later request first.
    Row {
        journal: b"machine m steps 2\n1 s1 commit 2 b\n2 s1 commit 1 a\n",
        heard: &[(
            b"commit m 1 a\ncommit m 2 b\n",
            b"@2 commit 1 a\n@1 commit 2 b\n",
        )],
        wanted: Wanted::Request(1, 2),
    },
    // Another's entry in a reply.
    Row {
        journal: b"machine m steps 1\n1 s2 commit 1 a\n",
        heard: &[COMMITTED, (b"", b"")],
        wanted: Wanted::Request(1, 1),
    },
    // Refusals in their order.
    Row {
        journal: b"machine m steps 1\n1 k commit 1 a\n",
        heard: &[(
            b"segment m X B/op\ntune m X\n",
            b"@1 E13 UnknownSeries\n@0 E01 BadRequest\n",
        )],
        wanted: Wanted::Shown(1, 1, 2),
    },
    // No machine.
    Row {
        journal: b"",
        heard: &[(
            b"machine m\nruns q\nx\n",
            b"@0 E27 OnlyAlone\n@0 E03 UnknownMachine\n@0 E01 BadRequest\n",
        )],
        wanted: Wanted::Shown(0, 0, 3),
    },
    // More than all replies.
    Row {
        journal: b"",
        heard: &[(
            b"machine m\nruns q\nx\n",
            b"@0 E27 OnlyAlone\n@0 E03 UnknownMachine\n@0 E01 BadRequest\n\n",
        )],
        wanted: Wanted::Request(1, 4),
    },
    // A last line that isn't ended.
    Row {
        journal: b"",
        heard: &[(
            b"machine m\nruns q\nx\n",
            b"@0 E27 OnlyAlone\n@0 E03 UnknownMachine\n@0 E01 BadRequest",
        )],
        wanted: Wanted::Request(1, 3),
    },
    // No reply.
    Row {
        journal: b"",
        heard: &[(b"machine m\nruns q\nx\n", b"")],
        wanted: Wanted::Request(1, 1),
    },
    // A script that is cut off.
    Row {
        journal: b"?",
        heard: &[(b"runs m\nsubmit go m a r 5\nab", b"")],
        wanted: Wanted::CutOff(1, 7),
    },
];

const SEGMENTATIONS: [Row; 3] = [
    // Another count of positions redone.
    Row {
        journal: PUBLISHED,
        heard: &[(
            SEGMENTING,
            b"@1 commit 10 a\n@2 commit 20 b\n@3 commit 30 c\n@4 commit 40 d\n@5 tuned B/op 50\n@6 accepted r1 samples 1 ignored 0\n@7 accepted r2 samples 1 ignored 0\n@8 accepted r4 samples 1 ignored 0\n@9 segmented version 8 base 0 points 3 cuts 1 redone 3 total 50\n@10 accepted r3 samples 1 ignored 0\n@11 segmented version 10 base 8 points 4 cuts 1 redone 3 total 50\n@11 changes version 10 lines 1\nb c 0 10 regression\n@11 verified version 10 lines 7\npoints 4\npenalty 50\ncuts 2\ntotal 50\nleast -50 0 0 50 50\nback 0 0 0 2 2\npruned 0 4 0 0 0\n@11 runs lines 4\nr1 a 1 live\nr2 b 1 live\nr4 d 1 live\nr3 c 1 live\n@11 report lines 1\n{\"jobs\":[],\"machine\":\"m1\",\"regressions\":[],\"series\":[{\"centre\":\"10\",\"changes\":1,\"metric\":\"B/op\",\"positions\":4,\"samples\":4,\"test\":\"X\"}],\"step\":11}\n",
        )],
        wanted: Wanted::Request(1, 11),
    },
    // Another base than was told.
    Row {
        journal: ANEW,
        heard: &[SEGMENTED],
        wanted: Wanted::Request(1, 11),
    },
    // No base.
    Row {
        journal: ANEW,
        heard: &[(
            SEGMENTING,
            b"@1 commit 10 a\n@2 commit 20 b\n@3 commit 30 c\n@4 commit 40 d\n@5 tuned B/op 50\n@6 accepted r1 samples 1 ignored 0\n@7 accepted r2 samples 1 ignored 0\n@8 accepted r4 samples 1 ignored 0\n@9 segmented version 8 base 0 points 3 cuts 1 redone 3 total 50\n@10 accepted r3 samples 1 ignored 0\n@11 segmented version 10 base 0 points 4 cuts 1 redone 4 total 50\n@11 changes version 10 lines 1\nb c 0 10 regression\n@11 verified version 10 lines 7\npoints 4\npenalty 50\ncuts 2\ntotal 50\nleast -50 0 0 50 50\nback 0 0 0 2 2\npruned 0 4 0 0 0\n@11 runs lines 4\nr1 a 1 live\nr2 b 1 live\nr4 d 1 live\nr3 c 1 live\n@11 report lines 1\n{\"jobs\":[],\"machine\":\"m1\",\"regressions\":[],\"series\":[{\"centre\":\"10\",\"changes\":1,\"metric\":\"B/op\",\"positions\":4,\"samples\":4,\"test\":\"X\"}],\"step\":11}\n",
        )],
        wanted: Wanted::Shown(1, 11, 15),
    },
];

const PUBLICATIONS: [Row; 10] = [
    // An older version, and one that came too late.
    Row {
        journal: BESIDE,
        heard: &[FIRST, SECOND],
        wanted: Wanted::Shown(1, 12, 13),
    },
    // From a base of the other script.
    Row {
        journal: b"machine m1 steps 12\n1 s1 commit 10 a\n2 s1 commit 20 b\n3 s1 commit 30 c\n4 s1 commit 40 d\n5 s1 tune B/op 50 1\n6 s1 accept r1 10 1 X B/op 0\n7 s1 accept r2 20 1 X B/op 0\n8 s1 accept r4 40 1 X B/op 10\n9 s2 accept r3 30 1 X B/op 10\n10 s1 publish X B/op 8 0 50 1 2\n11 s2 tune B/op 50 1\n12 s2 publish X B/op 11 8 50 1 2\n",
        heard: &[
            FIRST,
            (
                SECOND_SCRIPT,
                b"@9 accepted r3 samples 1 ignored 0\n@11 tuned B/op 50\n@12 segmented version 11 base 8 points 4 cuts 1 redone 2 total 50\n",
            ),
        ],
        wanted: Wanted::Shown(1, 12, 13),
    },
    // Another version published.
    Row {
        journal: BESIDE,
        heard: &[
            (
                FIRST_SCRIPT,
                b"@1 commit 10 a\n@2 commit 20 b\n@3 commit 30 c\n@4 commit 40 d\n@5 tuned B/op 50\n@6 accepted r1 samples 1 ignored 0\n@7 accepted r2 samples 1 ignored 0\n@8 accepted r4 samples 1 ignored 0\n@10 segmented version 8 base 0 points 3 cuts 1 redone 3 total 50\n@12 E24 Stale 10\n",
            ),
            SECOND,
        ],
        wanted: Wanted::Request(1, 10),
    },
    // Too late before it was.
    Row {
        journal: BESIDE,
        heard: &[
            (
                FIRST_SCRIPT,
                b"@1 commit 10 a\n@2 commit 20 b\n@3 commit 30 c\n@4 commit 40 d\n@5 tuned B/op 50\n@6 accepted r1 samples 1 ignored 0\n@7 accepted r2 samples 1 ignored 0\n@8 accepted r4 samples 1 ignored 0\n@10 segmented version 8 base 0 points 3 cuts 1 redone 3 total 50\n@11 E24 Stale 11\n",
            ),
            SECOND,
        ],
        wanted: Wanted::Request(1, 10),
    },
    // Not the second script's reply.
    Row {
        journal: BESIDE,
        heard: &[
            FIRST,
            (
                SECOND_SCRIPT,
                b"@9 accepted r3 samples 1 ignored 0\n@10 tuned B/op 50\n@12 segmented version 11 base 0 points 4 cuts 1 redone 4 total 50\n",
            ),
        ],
        wanted: Wanted::Request(2, 2),
    },
    // A publication of a worker.
    Row {
        journal: b"machine m steps 3\n1 k commit 1 a\n2 k accept r 1 1 X B/op 5\n3 r8 publish X B/op 2 0 0 0\n",
        heard: &[(
            b"changes m X B/op\nsegment m X B/op\n",
            b"@2 E14 NothingPublished\n@3 E24 Stale 2\n",
        )],
        wanted: Wanted::Request(1, 2),
    },
    // One that a script has not seen.
    Row {
        journal: b"machine m steps 4\n1 k commit 1 a\n2 k accept r 1 1 X B/op 5\n3 s2 commit 2 b\n4 r8 publish X B/op 3 0 0 0\n",
        heard: &[
            (
                b"changes m X B/op\nsegment m X B/op\n",
                b"@2 E14 NothingPublished\n@4 E24 Stale 3\n",
            ),
            (b"commit m 2 b\n", b"@3 commit 2 b\n"),
        ],
        wanted: Wanted::Shown(1, 4, 3),
    },
    // A version that was known before.
    Row {
        journal: b"machine m steps 4\n1 k commit 1 a\n2 k accept r 1 1 X B/op 5\n3 s1 commit 2 b\n4 s1 publish X B/op 2 0 0 0\n",
        heard: &[(
            b"commit m 2 b\nsegment m X B/op\n",
            b"@3 commit 2 b\n@4 segmented version 2 base 0 points 1 cuts 0 redone 1 total 0\n",
        )],
        wanted: Wanted::Request(1, 2),
    },
    // A worker with one of another setting.
    Row {
        journal: b"machine m steps 5\n1 k commit 1 a\n2 k accept r 1 1 X B/op 5\n3 r1 publish X B/op 2 0 0 0\n4 s1 tune B/op 7 2\n5 r1 publish X B/op 4 2 0 0\n",
        heard: &[(b"tune m B/op 7 2\n", b"@4 tuned B/op 7 2\n")],
        wanted: Wanted::Line(6),
    },
    // A series that is not known.
    Row {
        journal: b"machine m steps 1\n1 r1 publish X B/op 0 0 0 0\n",
        heard: &[(
            b"segment m X B/op\ntune m X\n",
            b"@1 E13 UnknownSeries\n@0 E01 BadRequest\n",
        )],
        wanted: Wanted::Line(2),
    },
];

const WORKERS: [Row; 2] = [
    // A worker that bisects.
    Row {
        journal: b"machine m steps 5\n1 s1 commit 0 c0\n2 s1 commit 1 c1\n3 s1 commit 2 c2\n4 s1 begin 0 2\n5 b1 answer 1 1 1\n",
        heard: &[BISECT],
        wanted: Wanted::Shown(1, 5, 4),
    },
    // A question given up.
    Row {
        journal: b"machine m steps 5\n1 s1 commit 0 c0\n2 s1 commit 1 c1\n3 s1 commit 2 c2\n4 s1 begin 0 2\n5 b8 giveup 1 1\n",
        heard: &[BISECT],
        wanted: Wanted::Shown(1, 5, 4),
    },
];

const SCRIPTS: [Row; 9] = [
    // Two scripts ask the same.
    Row {
        journal: b"machine m steps 1\n1 s1 commit 1 a\n",
        heard: &[COMMITTED, COMMITTED_BEFORE],
        wanted: Wanted::Shown(1, 1, 2),
    },
    // The other of two scripts came first.
    Row {
        journal: b"machine m steps 1\n1 s2 commit 1 a\n",
        heard: &[COMMITTED_BEFORE, COMMITTED],
        wanted: Wanted::Shown(1, 1, 2),
    },
    // Each with the other's reply.
    Row {
        journal: b"machine m steps 1\n1 s1 commit 1 a\n",
        heard: &[COMMITTED_BEFORE, COMMITTED],
        wanted: Wanted::Request(2, 1),
    },
    // An entry that was kept.
    Row {
        journal: b"machine m steps 2\n1 k commit 1 a\n2 s1 commit 2 b\n",
        heard: &[(
            b"commit m 1 a\ncommit m 2 b\n",
            b"@1 duplicate @1\n@2 commit 2 b\n",
        )],
        wanted: Wanted::Shown(1, 2, 2),
    },
    // Fewer entries than were kept.
    Row {
        journal: b"machine m steps 2\n1 k commit 1 a\n2 s1 commit 2 b\n",
        heard: &[(
            b"commit m 1 a\ncommit m 2 b\n",
            b"@0 E03 UnknownMachine\n@2 commit 2 b\n",
        )],
        wanted: Wanted::Request(1, 1),
    },
    // Kept behind others.
    Row {
        journal: b"machine m steps 2\n1 s1 commit 2 b\n2 k commit 1 a\n",
        heard: &[(b"commit m 1 a\n", b"")],
        wanted: Wanted::Line(3),
    },
    // Kept publication.
    Row {
        journal: b"machine m steps 1\n1 k publish X B/op 0 0 0 0\n",
        heard: &[(b"commit m 1 a\n", b"")],
        wanted: Wanted::Line(2),
    },
    // Two machines.
    Row {
        journal: b"machine a%20b steps 1\n1 s1 commit 1 a\nmachine n steps 2\n1 s2 commit 1 a\n2 s2 retract r\n",
        heard: &[
            (b"commit a%20b 1 a\n", b"@1 commit 1 a\n"),
            (b"commit n 1 a\n", b"@1 commit 1 a\n"),
        ],
        wanted: Wanted::Line(5),
    },
    // Two machines that fit.
    Row {
        journal: b"machine a%20b steps 1\n1 s1 commit 1 a\nmachine n steps 2\n1 s2 commit 1 a\n2 s1 commit 2 b\n",
        heard: &[
            (
                b"commit a%20b 1 a\ncommit n 2 b\n",
                b"@1 commit 1 a\n@2 commit 2 b\n",
            ),
            (
                b"commit n 1 a\nruns a%20b\nruns n\n",
                b"@1 commit 1 a\n@0 runs lines 0\n@1 runs lines 0\n",
            ),
        ],
        wanted: Wanted::Shown(2, 3, 5),
    },
];

// Journals of which none fits what is heard, each with the first line that doesn't.
struct Unfit {
    heard: &'static [Texts],
    journals: &'static [(&'static [u8], u64)],
}

const UNFIT: [Unfit; 5] = [
    Unfit {
        heard: &[SEGMENTED],
        journals: &[
            // A base that is none.
            (
                b"machine m1 steps 11\n1 s1 commit 10 a\n2 s1 commit 20 b\n3 s1 commit 30 c\n4 s1 commit 40 d\n5 s1 tune B/op 50 1\n6 s1 accept r1 10 1 X B/op 0\n7 s1 accept r2 20 1 X B/op 0\n8 s1 accept r4 40 1 X B/op 10\n9 s1 publish X B/op 8 0 50 1 2\n10 s1 accept r3 30 1 X B/op 10\n11 s1 publish X B/op 10 7 50 1 2\n",
                12,
            ),
            // Another total.
            (
                b"machine m1 steps 11\n1 s1 commit 10 a\n2 s1 commit 20 b\n3 s1 commit 30 c\n4 s1 commit 40 d\n5 s1 tune B/op 50 1\n6 s1 accept r1 10 1 X B/op 0\n7 s1 accept r2 20 1 X B/op 0\n8 s1 accept r4 40 1 X B/op 10\n9 s1 publish X B/op 8 0 50 1 2\n10 s1 accept r3 30 1 X B/op 10\n11 s1 publish X B/op 10 8 51 1 2\n",
                12,
            ),
            // Another cut.
            (
                b"machine m1 steps 11\n1 s1 commit 10 a\n2 s1 commit 20 b\n3 s1 commit 30 c\n4 s1 commit 40 d\n5 s1 tune B/op 50 1\n6 s1 accept r1 10 1 X B/op 0\n7 s1 accept r2 20 1 X B/op 0\n8 s1 accept r4 40 1 X B/op 10\n9 s1 publish X B/op 8 0 50 1 2\n10 s1 accept r3 30 1 X B/op 10\n11 s1 publish X B/op 10 8 50 1 3\n",
                12,
            ),
            // A version to come.
            (
                b"machine m1 steps 11\n1 s1 commit 10 a\n2 s1 commit 20 b\n3 s1 commit 30 c\n4 s1 commit 40 d\n5 s1 tune B/op 50 1\n6 s1 accept r1 10 1 X B/op 0\n7 s1 accept r2 20 1 X B/op 0\n8 s1 accept r4 40 1 X B/op 10\n9 s1 publish X B/op 8 0 50 1 2\n10 s1 accept r3 30 1 X B/op 10\n11 s1 publish X B/op 11 8 50 1 2\n",
                12,
            ),
            // A version before the last.
            (
                b"machine m1 steps 11\n1 s1 commit 10 a\n2 s1 commit 20 b\n3 s1 commit 30 c\n4 s1 commit 40 d\n5 s1 tune B/op 50 1\n6 s1 accept r1 10 1 X B/op 0\n7 s1 accept r2 20 1 X B/op 0\n8 s1 accept r4 40 1 X B/op 10\n9 s1 publish X B/op 8 0 50 1 2\n10 s1 accept r3 30 1 X B/op 10\n11 s1 publish X B/op 7 0 0 0\n",
                12,
            ),
        ],
    },
    Unfit {
        heard: &[BISECT],
        journals: &[
            // A ninth worker.
            (
                b"machine m steps 5\n1 s1 commit 0 c0\n2 s1 commit 1 c1\n3 s1 commit 2 c2\n4 s1 begin 0 2\n5 b9 answer 1 1 1\n",
                6,
            ),
            // A second script.
            (
                b"machine m steps 5\n1 s1 commit 0 c0\n2 s1 commit 1 c1\n3 s1 commit 2 c2\n4 s1 begin 0 2\n5 s2 answer 1 1 1\n",
                6,
            ),
            // A worker of the other kind.
            (
                b"machine m steps 5\n1 s1 commit 0 c0\n2 s1 commit 1 c1\n3 s1 commit 2 c2\n4 s1 begin 0 2\n5 r1 answer 1 1 1\n",
                6,
            ),
            // An answer that the script didn't give.
            (
                b"machine m steps 5\n1 s1 commit 0 c0\n2 s1 commit 1 c1\n3 s1 commit 2 c2\n4 s1 begin 0 2\n5 s1 answer 1 1 1\n",
                6,
            ),
            // Not the place that is asked.
            (
                b"machine m steps 5\n1 s1 commit 0 c0\n2 s1 commit 1 c1\n3 s1 commit 2 c2\n4 s1 begin 0 2\n5 b1 answer 1 0 1\n",
                6,
            ),
        ],
    },
    Unfit {
        heard: &[(b"commit m1 10 a\n", b"@1 commit 10 a\n")],
        journals: &[
            // An entry that nobody asked for.
            (
                b"machine m1 steps 2\n1 s1 commit 10 a\n2 s1 commit 20 b\n",
                3,
            ),
            // A number twice.
            (
                b"machine m1 steps 2\n1 s1 commit 10 a\n2 s1 commit 10 b\n",
                3,
            ),
        ],
    },
    Unfit {
        heard: &[COMMITTED],
        journals: &[
            // Fewer entries than steps.
            (b"machine m steps 2\n1 s1 commit 1 a\n", 3),
            // An entry that isn't ended.
            (b"machine m steps 1\n1 s1 commit 1 a", 2),
            // Steps out of order.
            (b"machine m steps 1\n2 s1 commit 1 a\n", 2),
        ],
    },
    Unfit {
        heard: &[(b"", b"")],
        journals: &[
            // A worker with a base that is none.
            (
                b"machine m steps 4\n1 k commit 1 a\n2 k accept r 1 1 X B/op 5\n3 r1 publish X B/op 2 0 0 0\n4 r1 publish X B/op 3 1 0 0\n",
                5,
            ),
            // A publication that was kept.
            (
                b"machine m steps 3\n1 k commit 1 a\n2 k accept r 1 1 X B/op 5\n3 k publish X B/op 2 0 0 0\n",
                4,
            ),
            // A question given up that no job asks.
            (b"machine m steps 1\n1 b1 giveup 1 1\n", 2),
            // A question given up of a job that has ended.
            (
                b"machine m steps 5\n1 k commit 0 a\n2 k commit 1 b\n3 k begin 0 1\n4 b1 giveup 1 1\n5 k commit 2 c\n",
                5,
            ),
            // A machine twice.
            (b"machine m steps 0\nmachine m steps 0\n", 2),
            // Another spelling of a machine.
            (b"machine %6d steps 0\n", 1),
            // Another spelling of a count.
            (b"machine m steps 00\n", 1),
            // An empty line.
            (b"\n", 1),
        ],
    },
];

fn holds(alloc: Global, row: &Row) -> bool {
    match heard_of(alloc, row) {
        Some(heard) => answers(alloc, row, &heard),
        None => false,
    }
}

fn answers(alloc: Global, row: &Row, heard: &[Heard]) -> bool {
    are_some(heard)
        && are_short(heard)
        && audit(alloc, row.journal, heard) == row.wanted.answer()
        && plain_audit(alloc, row.journal, heard) == row.wanted.answer()
}

// Whether there are 1 to 8 scripts.
pub fn are_some(heard: &[Heard]) -> bool
    ensures some { result ≡ true → 0 < length heard.now }
    ensures few { result ≡ true → length heard.now ≤ 8 }
{
    !heard.is_empty() && heard.len() <= 8
}

// Whether each script has 2^30 bytes at most.
pub fn are_short(heard: &[Heard]) -> bool
    ensures { result ≡ true → All (λ (h : AHeard). length h.script ≤ 2 ^ 30) heard.now }
{
    for one in heard {
        if one.script.len() > 1_073_741_824 {
            return false;
        }
    }
    true
}

#[test]
fn files_have_their_verdicts(rt: HostRuntime) -> Result<(), Fail> {
    let tables: [(&str, &[Row]); 6] = [
        ("replies fit, or the first that doesn't is told", &REPLIES),
        ("segmentations are made anew", &SEGMENTATIONS),
        ("publications fit what was known", &PUBLICATIONS),
        ("workers add what they may", &WORKERS),
        ("each script has its own entries", &SCRIPTS),
        ("runs fit", &RUNS),
    ];
    for (shown, rows) in &tables {
        for (number, row) in rows.iter().enumerate() {
            assert!(rt; holds(rt.alloc(), row), "{shown}: row {number}");
        }
    }
    Ok(())
}

#[test]
fn a_line_that_does_not_fit_is_told(rt: HostRuntime) -> Result<(), Fail> {
    for unfit in &UNFIT {
        for (journal, line) in unfit.journals {
            let row = Row {
                journal,
                heard: unfit.heard,
                wanted: Wanted::Line(*line),
            };
            assert!(rt; holds(rt.alloc(), &row), "{journal:?}");
        }
    }
    Ok(())
}
