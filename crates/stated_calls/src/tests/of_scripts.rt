//! Scripts: requests and replies as text, and what they say.
ghost use Rattle.std.specs.Prelude.{◌≡◌, false};

use line_text::{Duplicate, Name, NoMemory};
use reply_text::put_reply;
use report_pages::{JobLine, Pages, RegressionLine, SeriesLine, Told, put_json, put_text};
use request_model::{
    Answer, NamedChange, NamedChanges, RangePlace, Refusal, Reply, Request, RunLine, Runs,
};
use request_text::{Asked, Lines, PutFault, ReadStop, put_request, read_request};
use series_gen::put_script;
use std::alloc::Global;
use track_outside::Source;

fn lines() {
    let _: fn(Global) -> Result<Lines, NoMemory> = Lines::new;
    let _: [ReadStop; 4] = [
        ReadStop::ReadFault,
        ReadStop::CutOff(0),
        ReadStop::InputTooLong,
        ReadStop::NoMemory,
    ];
}

fn asked(request: Request, refusal: Refusal) -> [Asked; 3] {
    [Asked::Request(request), Asked::Refused(refusal), Asked::End]
}

fn read<S: Source>(alloc: Global, lines: &mut Lines, source: &mut S) -> Result<Asked, ReadStop>
    requires { lines.old.stopped ≡ false }
{
    read_request(alloc, lines, source)
}

fn written() {
    let _: fn(Global, &mut Vec<u8>, &Request) -> Result<(), PutFault> = put_request;
    let _: fn(Global, &mut Vec<u8>, &Reply) -> Result<(), NoMemory> = put_reply;
    let _: fn(Global, &mut Vec<u8>, &Pages) -> Result<(), NoMemory> = put_text;
    let _: fn(Global, &mut Vec<u8>, &Pages) -> Result<(), NoMemory> = put_json;
    let _: fn(Global, &mut Vec<u8>, u64) -> Result<(), NoMemory> = put_script;
}

// Names the call of each of these types that copies.
macro_rules! copies_of {
    ($($copied:ident),* $(,)?) => {
        $(let _: fn(&$copied, Global) -> Result<$copied, NoMemory> = $copied::copy;)*
    };
}

fn copies() {
    copies_of!(
        Request,
        Answer,
        Refusal,
        RangePlace,
        Reply,
        NamedChange,
        RunLine,
        Told,
        Pages,
        SeriesLine,
        RegressionLine,
        JobLine,
    );
}

fn changes(changes: &NamedChanges, alloc: Global) -> Result<NamedChanges, NoMemory> {
    changes.copy(alloc)
}

fn runs(runs: &Runs, alloc: Global) -> Result<Runs, NoMemory> {
    runs.copy(alloc)
}

fn change(change: NamedChange) -> (Name, Name, i64, i64, bool) {
    (
        change.before,
        change.after,
        change.left,
        change.right,
        change.worse,
    )
}

fn run(line: RunLine) -> (Name, Name, u64, bool) {
    (line.run, line.commit, line.samples, line.live)
}
