//! A run written: the compact text of its tree.
ghost use Rattle.std.specs.Prelude.{◌≡◌, ◌++◌, Ok, map, OnOk, IfOk};
ghost use Rattle.json_text.specs.View.{items_of};
ghost use Rattle.lnt_report.specs.{Written.{compact, compact_items, test_tree, run_tree}, Outcomes.IsDue};

use crate::NoMemory;
use crate::quoted::put_quoted;
use crate::run::LntRun;
use line_text::{Name, numbers_law};
use metric_value::{put_value, value_law};
use sample_model::Sample;
use std::alloc::Global;

// Appends bytes.
fn put_bytes(out: &mut Vec<u8>, bytes: &[u8]) -> Result<(), NoMemory>
    ensures { OnOk result (out.new.items ≡ out.old.items ++ bytes.now) }
{
    out.extend_from_slice(bytes)?;
    Ok(())
}

// Appends a sample as a test of one metric.
fn put_test(alloc: Global, out: &mut Vec<u8>, sample: &Sample) -> Result<(), NoMemory>
    ensures { OnOk result (out.new.items ≡ out.old.items ++ compact (test_tree sample.now)) }
{
    put_bytes(out, b"{\"name\":")?;
    put_quoted(out, sample.test.as_str())?;
    put_bytes(out, b",")?;
    put_quoted(out, sample.metric.as_str())?;
    put_bytes(out, b":")?;
    put_value(alloc, out, sample.metric.as_str().as_bytes(), sample.value)?;
    put_bytes(out, b"}")?;
    Ok(())
}

// Appends the samples, between commas.
fn put_tests(alloc: Global, out: &mut Vec<u8>, samples: &[Sample]) -> Result<(), NoMemory>
    ensures { OnOk result (out.new.items
        ≡ out.old.items ++ compact_items (items_of (map test_tree samples.now))) }
{
    let [first, rest @ ..] = samples else {
        return Ok(());
    };
    put_test(alloc, out, first)?;
    for sample in rest {
        put_bytes(out, b",")?;
        put_test(alloc, out, sample)?;
    }
    Ok(())
}

// Appends a whole run.
fn put_run(alloc: Global, out: &mut Vec<u8>, run: &LntRun) -> Result<(), NoMemory>
    ensures { OnOk result (out.new.items
        ≡ out.old.items ++ compact (run_tree run.now.machine run.now.commit run.now.samples)) }
{
    put_bytes(out, b"{\"format_version\":\"2\",\"machine\":{\"name\":")?;
    put_quoted(out, run.machine.as_str())?;
    put_bytes(out, b"},\"run\":{\"llvm_project_revision\":")?;
    put_quoted(out, run.commit.as_str())?;
    put_bytes(out, b"},\"tests\":[")?;
    put_tests(alloc, out, run.samples.as_slice())?;
    put_bytes(out, b"]}")?;
    Ok(())
}

/// The text of an LNT run, by the profile of docs/FORMATS.md: one line of JSON with no white space, in
/// which each sample is a test of its own. [`read_report`](crate::read_report) reads it as the run,
/// with no member ignored.
///
/// Linear in the text, which it takes memory for.
pub fn put_report(alloc: Global, run: &LntRun) -> Result<Vec<u8>, NoMemory>
    // What is written is the text of the run's tree, with no white space.
    ensures text { IfOk result (λ bytes. bytes.items
        ≡ compact (run_tree run.now.machine run.now.commit run.now.samples)) }
    // Reading what is written is due to give the run, with none ignored.
    ensures back { IfOk result (λ bytes. IsDue bytes.items (Ok (record {
      machine = run.now.machine;
      commit = run.now.commit;
      samples = run.now.samples;
      ignored = 0;
    }))) }
{
    numbers_law();
    value_law();
    run.limits();
    run.machine.bytes_law();
    run.commit.bytes_law();
    run.samples.limits();
    let mut out = Vec::new(alloc);
    put_run(alloc, &mut out, run)?;
    Ok(out)
}
