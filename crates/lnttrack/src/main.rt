//! The program `lnttrack`: its words, standard input, output and error, files and a store, handed to `tracker_top`.
//!
//! What a command does, and when each status comes, is the contract of `tracker_top::run`, which this program calls
//! with the real objects of `track_outside`; it ends with the status' number (`tracker_top::Status::exit_code`).
#![tactic(auto)]

ghost use Rattle.std.specs.Prelude.{◌≡◌, ◌<◌, length, IfOk};

use keep_sqlite::SqliteKeeper;
use pelt_core::Steps;
use std::alloc::AllocError;
use std::marker::Brand;
use std::process::ExitCode;
use std::sync::Wait;
use std::sync::ledger::{Blank, Ledger};
use std::thread::Threads;
use track_outside::{OpenGate, RealFiles, RealRunner, RealSink, RealSource};
use tracker_top::{Status, put_status, run, words_of};

fn main(rt: HostRuntime) -> ExitCode {
    let mut err = RealSink::error(&rt);
    let status = match words_of(&rt, rt.alloc()) {
        Ok(words) => counted::<_, Brand>(&rt, &rt, &words, &mut err, Blank::new(1)),
        Err(status) => told(&mut err, status),
    };
    status.exit_code()
}

// Runs the words, and counts the steps of a command of one thread in a new ledger. Threads are started by the handle.
fn counted<R: Threads + Wait + Sync, L: Ledger>(
    handle: &R,
    rt: &HostRuntime,
    words: &[String],
    err: &mut RealSink,
    blank: Blank,
) -> Status
    requires name { blank.name ≡ L.name }
    requires parts { blank.parts ≡ L.parts }
    requires some { 0 < L.parts }
{
    let Ok(mut runners) = eight_runners(rt) else {
        return told(err, Status::NoMemory);
    };
    let mut input = RealSource::input(rt);
    let mut out = RealSink::output(rt);
    let mut files = RealFiles::new(rt);
    let mut keeper = SqliteKeeper::new(rt, rt.alloc());
    let mut steps = Steps::<L>::start(blank);
    run(
        handle,
        rt.alloc(),
        words,
        &mut input,
        &mut out,
        err,
        &mut files,
        &mut keeper,
        &mut runners,
        &OpenGate,
        &mut steps,
    )
}

// Runners of programs, which weren't asked yet.
fn eight_runners(rt: &HostRuntime) -> Result<Vec<RealRunner<'_>>, AllocError>
    ensures { IfOk result (λ runners. length runners.items ≡ 8) }
{
    let mut runners = Vec::with_capacity(rt.alloc(), 8)?;
    runners.push_reserved(RealRunner::new(rt));
    runners.push_reserved(RealRunner::new(rt));
    runners.push_reserved(RealRunner::new(rt));
    runners.push_reserved(RealRunner::new(rt));
    runners.push_reserved(RealRunner::new(rt));
    runners.push_reserved(RealRunner::new(rt));
    runners.push_reserved(RealRunner::new(rt));
    runners.push_reserved(RealRunner::new(rt));
    Ok(runners)
}

// Tells a status; it stands also where it can't be told.
fn told(err: &mut RealSink, status: Status) -> Status {
    let _ = put_status(err, status);
    status
}
