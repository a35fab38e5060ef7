//! The samples of a text as far as it has been read, and what a line adds to them.
ghost use Rattle.std.specs.Prelude.{◌≡◌, ◌≤◌, true, ℕ, List, IfOk};
ghost use Rattle.go_bench_text.specs.{Gathering.AddsLine, Lines.begins, Readings.{IsOver, pkg_of}};

use crate::fault::LineFault;
use crate::line::head_of;
use crate::pairs::{Pair, Pairs, read_pairs};
use crate::sample::{shared_name, test_fits, test_name};
use line_text::{Duplicate, Name, Names};
use metric_table::Limit;
use sample_model::{NoMemory, Sample, Samples};
use std::alloc::Global;

// A text of fewer bytes mostly has one sample.
const SHORT: usize = 64;

// The samples of a text so far, or the note that there are more than a run may have.
#[derive(Drop)]
pub(crate) struct Gathered {
    pub(crate) samples: Samples,
    pub(crate) full: bool,
    buffer: String,
}

impl Gathered {
    ghost use Rattle.std.specs.Prelude.{◌≡◌, ◌<◌, ◌≤◌, ◌↔◌, ◌∷◌, [], All, length, IsTrue, IfOk, OnOk};
    ghost use Rattle.go_bench_text.specs.{Gathering.{Keeps, Gains, IsFull}, Pairs.{IsPair, sample_of, samples_of}, Readings.test_of};

    // No samples of a text of so many bytes. Where it is short there is room for one: a vector that grows takes room for four.
    pub(crate) fn new(alloc: Global, length: usize) -> Gathered
        ensures { Keeps result [] }
    {
        let samples = if length < SHORT {
            Samples::with_room(alloc, 1)
        } else {
            Samples::new(alloc)
        };
        Gathered {
            samples,
            full: false,
            buffer: String::new(alloc),
        }
    }

    // Whether there are as many samples as a run may have.
    fn is_full(&self) -> bool
        ensures { IsTrue result ↔ IsFull self.now }
    {
        self.full || self.samples.len() as u64 >= Limit::RunSamples.most()
    }

    // The sample of a pair more, kept if a run may have it.
    fn add(
        &mut self,
        alloc: Global,
        names: &mut Names,
        test: &Name,
        pair: &Pair<'_>,
    ) -> Result<(), NoMemory>
        requires { IsPair pair.now }
        ensures { OnOk result (Gains self.old self.new (sample_of test.now pair.now ∷ [])) }
    {
        if self.is_full() {
            self.full = true;
            return Ok(());
        }
        let metric = shared_name(alloc, names, pair.unit)?;
        self.samples.push(Sample {
            test: test.copy(alloc)?,
            metric,
            value: pair.value,
        })
    }

    // The samples of pairs more, as far as a run may have them.
    fn add_all(
        &mut self,
        alloc: Global,
        names: &mut Names,
        test: &Name,
        pairs: &[Pair<'_>],
    ) -> Result<(), NoMemory>
        requires { All IsPair pairs.now }
        ensures { OnOk result (Gains self.old self.new (samples_of test.now pairs.now)) }
    {
        for pair in pairs {
            self.add(alloc, names, test, pair)?;
        }
        Ok(())
    }

    // The samples of the pairs of a result line more. No name is made where a run has no room for them.
    fn add_pairs(
        &mut self,
        alloc: Global,
        names: &mut Names,
        pkg: &str,
        name: &str,
        pairs: &[Pair<'_>],
    ) -> Result<(), LineFault>
        requires each { All IsPair pairs.now }
        requires any { 0 < length pairs.now }
        ensures ok { OnOk result (Gains self.old self.new
            (samples_of (test_of pkg.now name.now) pairs.now)) }
        ensures over { result ≡ Err LineFault.OutOfRange
            → 256 < length (test_of pkg.now name.now) }
        ensures short { OnOk result (length (test_of pkg.now name.now) ≤ 256) }
    {
        if !test_fits(pkg, name) {
            return Err(LineFault::OutOfRange);
        }
        if self.is_full() {
            self.full = true;
            return Ok(());
        }
        let Ok(test) = test_name(alloc, names, &mut self.buffer, pkg, name) else {
            return Err(LineFault::NoMemory);
        };
        match self.add_all(alloc, names, &test, pairs) {
            Ok(()) => Ok(()),
            Err(_) => Err(LineFault::NoMemory),
        }
    }
}

// Adds the samples of a line that begins with `Benchmark`, behind lines that leave `pkg` at this value. How many lines
// are ignored there: one where the line is broken, else none. What `pairs` holds is of no account.
pub(crate) fn add_measured<'a>(
    alloc: Global,
    names: &mut Names,
    gathered: &mut Gathered,
    pairs: &mut Pairs<'a>,
    pkg: &str,
    line: &'a str,
) -> Result<u64, LineFault>
    requires { begins line.now ≡ true }
    ensures ok { IfOk result (λ ignored. (before : List (List ℕ)) → pkg_of before ≡ pkg.now
        → AddsLine gathered.old gathered.new before line.now ignored) }
    ensures over { result ≡ Err LineFault.OutOfRange
        → (before : List (List ℕ)) → pkg_of before ≡ pkg.now → IsOver before line.now }
    ensures few { IfOk result (λ ignored. ignored ≤ 1) }
{
    let Some((name, behind)) = head_of(line) else {
        return Ok(1);
    };
    if !read_pairs(behind, pairs)? {
        return Ok(1);
    }
    gathered.add_pairs(alloc, names, pkg, name, pairs.as_slice())?;
    Ok(0)
}
