//! What the program is handed.

use line_text::NoMemory;
use std::alloc::Global;
use std::rt::HostRuntime;
use track_outside::{
    Failed, Gate, MemFiles, MemKeeper, MemRunner, MemSink, MemSource, OpenGate, OutError, Place,
    RealFiles, RealRunner, RealSink, RealSource, RepeatSource, Sink, SureSink, SureSource, put_all,
};

fn in_memory() {
    let _: fn(Global, &[u8], &[u64]) -> Result<MemSource, NoMemory> = MemSource::new;
    let _: fn(Global, usize, &[u64]) -> Result<MemSink, NoMemory> = MemSink::new;
    let _: fn(Global, usize, &[u64]) -> Result<MemFiles, NoMemory> = MemFiles::new;
    let _: fn(&mut MemFiles, &str, &[u8]) -> Result<(), NoMemory> = MemFiles::put;
    let _: fn(Global, &[u64]) -> Result<MemKeeper, NoMemory> = MemKeeper::new;
    let _: fn(Global, &[(u64, u8)], &[u64]) -> Result<MemRunner, NoMemory> = MemRunner::new;
    let _: fn(Global, &[u8], u64) -> Result<RepeatSource, NoMemory> = RepeatSource::new;
    let _: fn(Global, &[u8]) -> Result<SureSource, NoMemory> = SureSource::new;
    let _: fn() -> SureSink = SureSink::new;
    let _: [OutError; 2] = [OutError::Failed, OutError::NoMemory];
    let _: [Place; 5] = [
        Place::Replied(1),
        Place::SeriesTaken(1),
        Place::SeriesDone(1),
        Place::QuestionTaken(1),
        Place::AnswerReady(1),
    ];
}

fn passed(gate: &OpenGate, place: Place) {
    gate.pass(place);
}

fn taken(sink: &MemSink) -> &[u8] {
    sink.bytes()
}

fn bytes_of(files: &MemFiles) -> Option<&[u8]> {
    files.get("a")
}

fn asked(runner: &MemRunner) -> Option<(&str, &str, Option<u8>)> {
    runner.asked(0)
}

fn written<S: Sink>(sink: &mut S, bytes: &[u8]) -> Result<(), Failed> {
    put_all(sink, bytes)
}

fn real() {
    let _: fn(&HostRuntime) -> RealSource = RealSource::input;
    let _: fn(&HostRuntime) -> RealSink = RealSink::output;
    let _: fn(&HostRuntime) -> RealSink = RealSink::error;
}

fn files(rt: &HostRuntime) -> RealFiles<'_> {
    RealFiles::new(rt)
}

fn runner(rt: &HostRuntime) -> RealRunner<'_> {
    RealRunner::new(rt)
}
