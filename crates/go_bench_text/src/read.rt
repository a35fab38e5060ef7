//! The reader of benchmark output: from the bytes over the lines to the samples.
ghost use Rattle.std.specs.{Prelude.{◌≡◌, ◌≤◌, ◌∷◌, ◌++◌, [], true, false, ℕ, List, length, IfOk, IfErr, IfSome, IfNone}, Str.IsUtf8};
ghost use Rattle.sample_model.specs.Samples.{Measurement};
ghost use Rattle.metric_table.specs.{Limits.most, declared.limits.Limit.TheVariants.RunSamples};
ghost use Rattle.go_bench_text.specs.{Answers.{IsFault, GivesEach}, Gathering.{AddsLine, Keeps}, Lines.value_of, Readings.{sets_pkg, pkg_of, IsOver, IsRead, OneReading}};

use crate::config::setting_of;
use crate::fault::LineFault;
use crate::gather::{Gathered, add_measured};
use crate::line::{begins, first_line};
use crate::pairs::Pairs;
use line_text::{Duplicate, Names};
use metric_table::Limit;
use metric_value::value_law;
use sample_model::{NoMemory, Samples};
use std::alloc::Global;

// A text of fewer bytes has few places for names.
const LONG: usize = 65_536;

// How many places there are.
const FEW: usize = 64;

const MANY: usize = 4_096;

/// What a text of benchmark output has.
#[derive(Clone, Debug, Drop)]
pub struct GoRun {
    /// The samples, in order of the text.
    pub samples: Samples,
    /// How many lines begin with `Benchmark` and are no result lines.
    pub ignored: u64,
}

/// An equal run of its own. Linear in the number of samples.
impl Duplicate for GoRun {
    fn copy(&self, _alloc: Global) -> Result<GoRun, NoMemory> {
        self.clone()
    }
}

/// Why a text gives no samples.
#[derive(Clone, Copy, Debug, PartialEq, Eq)]
pub enum GoFault {
    /// The bytes are no UTF-8 text: the length of the longest prefix that is.
    NotText(u64),
    /// The number, from 1, of the first result line with a value out of range or a test of more than 256 bytes.
    OutOfRange(u64),
    /// There are more samples than a run may have.
    Full(Limit),
    /// There was no memory for the samples.
    NoMemory,
}

// The value that a configuration line with the key `pkg` sets.
fn pkg_value(line: &str) -> Option<&str>
    ensures some { IfSome result (λ value. sets_pkg line.now ≡ true) }
    ensures value { IfSome result (λ value. value.now ≡ value_of line.now) }
    ensures text { IfSome result (λ value. IsUtf8 value.now) }
    ensures none { IfNone result (sets_pkg line.now ≡ false) }
{
    let (key, value) = setting_of(line)?;
    if key == "pkg" { Some(value) } else { None }
}

// Reads a line behind lines that leave `pkg` at this value: the value of `pkg` behind it, and how many lines are
// ignored there.
fn read_line<'a>(
    alloc: Global,
    names: &mut Names,
    gathered: &mut Gathered,
    pairs: &mut Pairs<'a>,
    pkg: &'a str,
    line: &'a str,
) -> Result<(&'a str, u64), LineFault>
    ensures adds { IfOk result (λ read. (before : List (List ℕ)) → pkg_of before ≡ pkg.now
        → AddsLine gathered.old gathered.new before line.now read.1) }
    ensures pkg { IfOk result (λ read. (before : List (List ℕ)) → pkg_of before ≡ pkg.now
        → pkg_of (before ++ line.now ∷ []) ≡ read.0.now) }
    ensures over { result ≡ Err LineFault.OutOfRange
        → (before : List (List ℕ)) → pkg_of before ≡ pkg.now → IsOver before line.now }
    ensures few { IfOk result (λ read. read.1 ≤ 1) }
    ensures text { IfOk result (λ read. IsUtf8 read.0.now) }
{
    if begins(line) {
        let ignored = add_measured(alloc, names, gathered, pairs, pkg, line)?;
        return Ok((pkg, ignored));
    }
    match pkg_value(line) {
        Some(value) => Ok((value, 0)),
        None => Ok((pkg, 0)),
    }
}

// The samples of a text, kept, and how many of its lines are ignored.
fn gather(alloc: Global, names: &mut Names, text: &str) -> Result<(Gathered, u64), GoFault>
    ensures ok { IfOk result (λ all. (given : List Measurement)
        × Keeps all.0 given × IsRead text.now given all.1) }
    ensures fault { IfErr result (λ fault. IsFault text.now fault) }
{
    let mut gathered = Gathered::new(alloc, text.len());
    let mut pairs = Pairs::new(alloc);
    let mut pkg = "";
    let mut number = 0u64;
    let mut ignored = 0u64;
    let mut rest = text;
    loop {
        let (line, behind) = first_line(rest);
        number += 1;
        match read_line(alloc, names, &mut gathered, &mut pairs, pkg, line) {
            Ok((value, count)) => {
                pkg = value;
                ignored += count;
            }
            Err(LineFault::OutOfRange) => return Err(GoFault::OutOfRange(number)),
            Err(LineFault::NoMemory) => return Err(GoFault::NoMemory),
        }
        let Some(more) = behind else {
            return Ok((gathered, ignored));
        };
        rest = more;
    }
}

// The answer of `read_go`, by its causes.
fn read_text(alloc: Global, names: &mut Names, bytes: &[u8]) -> Result<GoRun, GoFault>
    ensures ok { IfOk result (λ run. IsRead bytes.now run.samples run.ignored) }
    ensures fault { IfErr result (λ fault. IsFault bytes.now fault) }
{
    let text = match str::from_utf8(bytes) {
        Ok(text) => text,
        Err(fault) => return Err(GoFault::NotText(fault.valid_up_to() as u64)),
    };
    let (gathered, ignored) = gather(alloc, names, text)?;
    if gathered.full {
        return Err(GoFault::Full(Limit::RunSamples));
    }
    Ok(GoRun {
        samples: gathered.samples,
        ignored,
    })
}

/// Lines behind the same lines have one list of samples and one number of ignored lines. Does nothing: its contract is
/// what it is for. With it, what is read as some samples is read as no others: neither the text that `put_go` gives nor
/// a text that `read_go` reads has a second reading.
pub fn one_reading_law()
    ensures { OneReading }
{
    value_law();
}

/// The samples of a text of benchmark output: one for each pair of a value and a unit on its result lines, in order.
///
/// The test of a sample is the value of `pkg` on the last configuration line before it that sets it, `#`, and the name
/// of the benchmark; its metric is the unit, and its value is scaled by the metric's decimals. Lines that begin with
/// `Benchmark` and are no result lines are ignored and counted. The rules are those of docs/FORMATS.md.
///
/// Linear in the length of the text; takes memory for the samples and, while it reads, for the pairs of a line that has more than
/// four, and for at most 4,096 places of names.
pub fn read_go(alloc: Global, bytes: &[u8]) -> Result<GoRun, GoFault>
    // What is given are the text's samples, and where a text has samples within the limit they are
    // given, unless memory runs out.
    ensures ok { IfOk result (λ run. IsRead bytes.now run.samples run.ignored) }
    ensures only { GivesEach bytes.now result }

    // Each fault is at its place.
    ensures fault { IfErr result (λ fault. IsFault bytes.now fault) }
{
    let places = if bytes.len() < LONG { FEW } else { MANY };
    read_go_with(alloc, &mut Names::new(alloc, places), bytes)
}

/// The samples of a text of benchmark output, as [`read_go`] gives them, with names that are shared with those met before: for
/// texts that come one after another, and measure the same tests by the same units.
pub fn read_go_with(alloc: Global, names: &mut Names, bytes: &[u8]) -> Result<GoRun, GoFault>
    ensures ok { IfOk result (λ run. IsRead bytes.now run.samples run.ignored) }
    ensures only { GivesEach bytes.now result }
    ensures fault { IfErr result (λ fault. IsFault bytes.now fault) }
{
    one_reading_law();
    read_text(alloc, names, bytes)
}
