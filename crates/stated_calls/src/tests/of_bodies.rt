//! Bodies: samples of Go text and of LNT runs.

use go_bench_text::{GoFault, GoRun, LineKind, PutFault, line_kind, put_go, read_go};
use json_text::{Json, JsonFault, JsonList, JsonMembers, Member, read_json};
use line_text::{Duplicate, Name, NoMemory, Text};
use lnt_report::{LntRun, ReportFault, put_report, read_report};
use metric_table::Limit;
use sample_store::{Accepted, Retracted, Run, Sample, SampleStore, Samples};
use std::alloc::Global;

fn runs() {
    let _: fn(Global) -> SampleStore = SampleStore::new;
    let _: fn(&mut SampleStore, u64, Run) -> Result<Accepted, NoMemory> = SampleStore::accept;
    let _: fn(&mut SampleStore, u64, &Name) -> Retracted = SampleStore::retract;
    let _: fn(Global) -> Samples = Samples::new;
    let _: fn(&mut Samples, Sample) -> Result<(), NoMemory> = Samples::push;
    let _: fn(&Samples) -> usize = Samples::len;
    let _: fn(&Samples, Global) -> Result<Samples, NoMemory> = Samples::copy;
    let _: fn(&Sample, Global) -> Result<Sample, NoMemory> = Sample::copy;
    let _: fn(&Run, Global) -> Result<Run, NoMemory> = Run::copy;
}

fn told() {
    let _: [Accepted; 4] = [
        Accepted::New,
        Accepted::Duplicate(1),
        Accepted::Clash(1),
        Accepted::Full(Limit::Runs),
    ];
    let _: [Retracted; 3] = [
        Retracted::Done,
        Retracted::UnknownRun,
        Retracted::AlreadyRetracted(1),
    ];
}

fn sample(samples: &Samples) -> Option<&Sample> {
    samples.get(0)
}

fn parts_of_sample(sample: Sample) -> (Name, Name, i64) {
    (sample.test, sample.metric, sample.value)
}

fn parts_of_run(run: Run) -> (Name, u64, Samples) {
    (run.run, run.commit, run.samples)
}

fn go_texts() {
    let _: fn(&str) -> LineKind = line_kind;
    let _: fn(Global, &[u8]) -> Result<GoRun, GoFault> = read_go;
    let _: fn(Global, &Samples) -> Result<Vec<u8>, PutFault> = put_go;
    let _: fn(&GoRun, Global) -> Result<GoRun, NoMemory> = GoRun::copy;
    let _: [LineKind; 4] = [
        LineKind::Config,
        LineKind::Result,
        LineKind::Broken,
        LineKind::Other,
    ];
    let _: [GoFault; 4] = [
        GoFault::NotText(0),
        GoFault::OutOfRange(1),
        GoFault::Full(Limit::RunSamples),
        GoFault::NoMemory,
    ];
    let _: [PutFault; 2] = [PutFault::CannotWrite(0), PutFault::NoMemory];
}

fn parts_of_text(run: GoRun) -> (Samples, u64) {
    (run.samples, run.ignored)
}

fn json() {
    let _: fn(Global, &[u8]) -> Result<Json, JsonFault> = read_json;
    let _: fn(&Json, Global) -> Result<Json, NoMemory> = Json::copy;
    let _: fn(&Member, Global) -> Result<Member, NoMemory> = Member::copy;
    let _: fn(Global) -> JsonList = JsonList::new;
    let _: fn(&mut JsonList, Json) -> Result<(), NoMemory> = JsonList::push;
    let _: fn(&JsonList) -> usize = JsonList::len;
    let _: fn(Global) -> JsonMembers = JsonMembers::new;
    let _: fn(&mut JsonMembers, Member) -> Result<(), NoMemory> = JsonMembers::push;
    let _: fn(&JsonMembers) -> usize = JsonMembers::len;
    let _: [JsonFault; 4] = [
        JsonFault::NotText(0),
        JsonFault::NotJson(0),
        JsonFault::TooDeep(0),
        JsonFault::NoMemory,
    ];
}

fn value(list: &JsonList) -> Option<&Json> {
    list.get(0)
}

fn member(members: &JsonMembers) -> Option<&Member> {
    members.get(0)
}

fn lnt_runs() {
    let _: fn(Global, &[u8]) -> Result<LntRun, ReportFault> = read_report;
    let _: fn(Global, &LntRun) -> Result<Vec<u8>, NoMemory> = put_report;
    let _: fn(&LntRun, Global) -> Result<LntRun, NoMemory> = LntRun::copy;
}

fn parts_of_lnt_run(run: LntRun) -> (Name, Name, Samples, u64) {
    (run.machine, run.commit, run.samples, run.ignored)
}

fn faults(member: Text, test: Text, metric: Text) -> (ReportFault, ReportFault) {
    let _ = [
        ReportFault::NotText(0),
        ReportFault::NotJson(0),
        ReportFault::TooDeep(0),
        ReportFault::Full(Limit::RunSamples),
        ReportFault::NoMemory,
    ];
    (
        ReportFault::NotReport { rule: 1, member },
        ReportFault::OutOfRange { test, metric },
    )
}
