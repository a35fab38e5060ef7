//! The writer: samples as benchmark output.
ghost use Rattle.std.specs.{Prelude.{◌≡◌, ◌++◌, ◌∷◌, [], true, ℕ, List, IfOk, OnOk, IfSome, IfNone}, List.list_all, Str.chars};
ghost use Rattle.go_bench_text.specs.{Bytes.line_feed, Characters.is_black, Readings.IsRead, Spellings.{IsWrittenBy, HasSpelling, IsSpelling, AreSpelled, IsFirstUnspelled, pkg_line, result_line}};

use crate::spelling::{are_black, written_by};
use metric_value::{put_value, value_law};
use sample_model::{NoMemory, Sample, Samples};
use std::alloc::Global;

/// Why samples give no text.
#[derive(Clone, Copy, Debug, PartialEq, Eq)]
pub enum PutFault {
    /// The place, from 0, of the first sample that has no spelling.
    CannotWrite(u64),
    /// There was no memory for the text.
    NoMemory,
}

// What `pkg` is set to and the name that a sample is written by.
fn spelled_by(sample: &Sample) -> Option<(&str, &str)>
    ensures some { IfSome result (λ parts. IsWrittenBy sample.now.test parts.0.now parts.1.now) }
    ensures unit { IfSome result (λ parts. list_all is_black (chars sample.now.metric) ≡ true) }
    ensures none { IfNone result (¬ HasSpelling sample.now) }
{
    if !are_black(sample.metric.as_str()) {
        return None;
    }
    let Some(parts) = written_by(sample.test.as_str()) else {
        return None;
    };
    Some(parts)
}

// Appends the line that sets `pkg`.
fn put_pkg(out: &mut Vec<u8>, pkg: &str) -> Result<(), NoMemory>
    ensures { OnOk result (out.new.items ≡ out.old.items ++ (pkg_line pkg.now ++ line_feed ∷ [])) }
{
    out.extend_from_slice(b"pkg:")?;
    if !pkg.is_empty() {
        out.push(b' ')?;
        out.extend_from_slice(pkg.as_bytes())?;
    }
    out.push(b'\n')?;
    Ok(())
}

// Appends the result line of a sample.
fn put_result(alloc: Global, out: &mut Vec<u8>, name: &str, sample: &Sample) -> Result<(), NoMemory>
    ensures { OnOk result (out.new.items
        ≡ out.old.items ++ (result_line name.now sample.now ++ line_feed ∷ [])) }
{
    out.extend_from_slice(b"Benchmark")?;
    out.extend_from_slice(name.as_bytes())?;
    out.extend_from_slice(b" 1 ")?;
    put_value(alloc, out, sample.metric.as_str().as_bytes(), sample.value)?;
    out.push(b' ')?;
    out.extend_from_slice(sample.metric.as_str().as_bytes())?;
    out.push(b'\n')?;
    Ok(())
}

// Appends the text of a sample that is written by these parts.
fn put_sample(
    alloc: Global,
    out: &mut Vec<u8>,
    sample: &Sample,
    pkg: &str,
    name: &str,
) -> Result<(), NoMemory>
    requires written { IsWrittenBy sample.now.test pkg.now name.now }
    requires unit { list_all is_black (chars sample.now.metric) ≡ true }
    ensures { OnOk result ((text : List ℕ) × IsSpelling sample.now text
        × (out.new.items ≡ out.old.items ++ text)) }
{
    put_pkg(out, pkg)?;
    put_result(alloc, out, name, sample)?;
    Ok(())
}

/// The text of the samples, by which they are read back: for each a line that sets `pkg`, and a result line with the
/// value by its metric's decimals. `CannotWrite` names the first sample that has no spelling: a test that is no name and
/// can't be cut at a `#`, or a metric with white space. The rules are those of docs/FORMATS.md.
///
/// Linear in the samples; takes memory for the text alone.
pub fn put_go(alloc: Global, samples: &Samples) -> Result<Vec<u8>, PutFault>
    ensures ok { IfOk result (λ text. AreSpelled samples.now text.items) }
    ensures back { IfOk result (λ text. IsRead text.items samples.now 0) }
    ensures cannot { (place : ℕ) → result ≡ Err (PutFault.CannotWrite place)
        → IsFirstUnspelled samples.now place }
{
    samples.limits();
    value_law();
    let mut out = Vec::new(alloc);
    for (place, sample) in samples.as_slice().iter().enumerate() {
        let Some((pkg, name)) = spelled_by(sample) else {
            return Err(PutFault::CannotWrite(place as u64));
        };
        let Ok(()) = put_sample(alloc, &mut out, sample, pkg, name) else {
            return Err(PutFault::NoMemory);
        };
    }
    Ok(out)
}
