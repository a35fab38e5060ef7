//! The calls of the program, named once with their types: see the crate `stated_calls`. Each is
//! called under its own conditions.
ghost use Rattle.std.specs.Prelude.{◌<◌, ◌≤◌, ◌^◌, All, length};
ghost use Rattle.audit_model.specs.declared.heard.Heard.{Heard as AHeard};
ghost use Rattle.tracker_top.specs.Plays.{IsNewRunner};

use pelt_core::Steps;
use play_audit::{AuditStop, Bytes, Heard, Verdict, audit};
use std::alloc::Global;
use std::sync::Wait;
use std::sync::ledger::Ledger;
use std::thread::Threads;
use track_outside::{Files, Gate, Keeper, Runner};
use tracker_top::{Status, alone, asks_hunt, asks_play, hunt, play, run};

// What a command reads, its output, where its line goes, its files, its store, and the gate of its threads.
#[derive(Drop)]
struct Objects<'a, F: Files, K: Keeper, G: Gate> {
    input: &'a mut F::Input,
    out: &'a mut F::Output,
    err: &'a mut F::Output,
    files: &'a mut F,
    keeper: &'a mut K,
    gate: &'a G,
}

// Any words, at once or by what the first of them asks for.
fn runs<W: Threads + Wait + Sync, F: Files, K: Keeper, N: Runner + Send, G: Gate, L: Ledger>(
    rt: &W,
    alloc: Global,
    words: &[String],
    objects: Objects<'_, F, K, G>,
    runners: &mut Vec<N>,
    steps: &mut Steps<L>,
    at_once: bool,
) -> Status
    requires eight { 8 ≤ length runners.old.items }
    requires unasked { All (IsNewRunner N.Runner) runners.old.items }
{
    let Objects {
        input,
        out,
        err,
        files,
        keeper,
        gate,
    } = objects;
    if at_once {
        return run(
            rt, alloc, words, input, out, err, files, keeper, runners, gate, steps,
        );
    }
    if asks_play(words) {
        return play(rt, alloc, words, out, err, files, keeper, runners, gate);
    }
    if asks_hunt(words) {
        return hunt::<W, F, N>(rt, alloc, words, input, out, err, runners);
    }
    alone(alloc, words, input, out, err, files, keeper, steps)
}

fn audits(alloc: Global, journal: &[u8], heard: &[Heard]) -> Result<Verdict, AuditStop>
    requires some { 0 < length heard.now }
    requires few { length heard.now ≤ 8 }
    requires short { All (λ (h : AHeard). length h.script ≤ 2 ^ 30) heard.now }
{
    audit(alloc, journal, heard)
}

fn heard(script: Bytes, transcript: Bytes) -> Heard {
    Heard { script, transcript }
}

fn statuses() {
    let _: [Status; 13] = [
        Status::Done,
        Status::BadWords,
        Status::ReadFault,
        Status::WriteFault,
        Status::StoreFault,
        Status::BadStore(1),
        Status::CutOff(1, 0),
        Status::NoMemory,
        Status::InputTooLong(1),
        Status::BadLine(1),
        Status::Full(1),
        Status::Differs(Verdict::JournalLine(1)),
        Status::TooFew(1),
    ];
    let _: [Verdict; 3] = [
        Verdict::Shown {
            machines: 1,
            steps: 1,
            requests: 1,
        },
        Verdict::JournalLine(1),
        Verdict::Request {
            script: 1,
            request: 1,
        },
    ];
    let _: [AuditStop; 2] = [
        AuditStop::CutOff {
            script: 1,
            offset: 0,
        },
        AuditStop::NoMemory,
    ];
}

fn number(status: &Status) -> u8 {
    status.number()
}
