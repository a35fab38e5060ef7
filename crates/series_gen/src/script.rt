//! Writing the script, part by part.
ghost use Rattle.std.specs.Prelude.{◌≡◌, ◌<◌, ◌+◌, ◌%◌, ◌==◌, if◌then◌else◌, [], ◌++◌, decimal, OnOk, OnErr};
ghost use Rattle.series_gen.specs.Script.{script, in_turn, commit_line, submit_line, body_line, place, value, turn, segment_line, retract_line};

use crate::drawn::{next_state, number_of};
use line_text::{NoMemory, put_u64};
use std::alloc::Global;

/// Puts the script of a number behind some bytes: requests in order, with the bodies of their runs.
///
/// Linear in the script; changes nothing where there is no memory.
pub fn put_script(alloc: Global, out: &mut Vec<u8>, number: u64) -> Result<(), NoMemory>
    ensures ok { OnOk result (out.new.items ≡ out.old.items ++ script number) }
    ensures err { OnErr result (out.new.items ≡ out.old.items) }
{
    let mut text = Vec::new(alloc);
    put_parts(alloc, &mut text, number)?;
    out.extend_from_slice(&text)?;
    Ok(())
}

// Puts the script, part by part. As with each function below, any of it may be put where there is no memory.
fn put_parts(alloc: Global, out: &mut Vec<u8>, number: u64) -> Result<(), NoMemory>
    ensures { OnOk result (out.new.items ≡ out.old.items ++ script number) }
{
    out.extend_from_slice(b"machine g\n")?;
    put_commits(alloc, out)?;
    out.extend_from_slice(b"tune g ns/op 300000000000\n")?;
    put_turns(alloc, out, number)?;
    put_retractions(alloc, out)?;
    out.extend_from_slice(b"segment g G ns/op\n")?;
    out.extend_from_slice(b"changes g G ns/op\n")?;
    Ok(())
}

// The lines of the 500 commits.
fn put_commits(alloc: Global, out: &mut Vec<u8>) -> Result<(), NoMemory>
    ensures { OnOk result (out.new.items ≡ out.old.items ++ in_turn commit_line 500) }
{
    for i in 0..500 {
        put_commit(alloc, out, i)?;
    }
    Ok(())
}

// The line of one commit.
fn put_commit(alloc: Global, out: &mut Vec<u8>, i: u64) -> Result<(), NoMemory>
    ensures { OnOk result (out.new.items ≡ out.old.items ++ commit_line i) }
{
    put_numbered(alloc, out, b"commit g ", i)?;
    put_numbered(alloc, out, b" c", i)?;
    out.push(b'\n')?;
    Ok(())
}

// The runs and the segmentations among them.
fn put_turns(alloc: Global, out: &mut Vec<u8>, number: u64) -> Result<(), NoMemory>
    ensures { OnOk result (out.new.items ≡ out.old.items ++ in_turn (turn number) 2_000) }
{
    let mut state = number;
    for j in 0..2_000 {
        state = next_state(state);
        put_submit(alloc, out, j)?;
        put_body(alloc, out, value_of(j, state))?;
        put_hundredth(out, j)?;
    }
    Ok(())
}

// The line that submits a run.
fn put_submit(alloc: Global, out: &mut Vec<u8>, j: u64) -> Result<(), NoMemory>
    requires { j < 2_000 }
    ensures { OnOk result (out.new.items ≡ out.old.items ++ submit_line j) }
{
    put_numbered(alloc, out, b"submit go g c", 271 * j % 500)?;
    put_numbered(alloc, out, b" r", j)?;
    out.extend_from_slice(b" 24\n")?;
    Ok(())
}

// The value of a run.
fn value_of(j: u64, state: u64) -> u64
    requires { j < 2_000 }
    ensures { result ≡ value (place j) state }
{
    1000 + 100 * (271 * j % 500 / 125) + number_of(21, state)
}

// The body of a run.
fn put_body(alloc: Global, out: &mut Vec<u8>, value: u64) -> Result<(), NoMemory>
    ensures { OnOk result (out.new.items ≡ out.old.items ++ body_line value) }
{
    put_numbered(alloc, out, b"BenchmarkG 1 ", value)?;
    out.extend_from_slice(b" ns/op\n")?;
    Ok(())
}

// The line of a segmentation after each hundredth run.
fn put_hundredth(out: &mut Vec<u8>, j: u64) -> Result<(), NoMemory>
    requires { j < 2_000 }
    ensures { OnOk result
        (out.new.items ≡ out.old.items ++ (if (j + 1) % 100 == 0 then segment_line else [])) }
{
    if (j + 1) % 100 == 0 {
        out.extend_from_slice(b"segment g G ns/op\n")?;
    }
    Ok(())
}

// The lines of the ten retractions.
fn put_retractions(alloc: Global, out: &mut Vec<u8>) -> Result<(), NoMemory>
    ensures { OnOk result (out.new.items ≡ out.old.items ++ in_turn retract_line 10) }
{
    for i in 0..10 {
        put_numbered(alloc, out, b"retract g r", 200 * i)?;
        out.push(b'\n')?;
    }
    Ok(())
}

// Puts a text, and a number behind it.
fn put_numbered(alloc: Global, out: &mut Vec<u8>, text: &[u8], n: u64) -> Result<(), NoMemory>
    ensures { OnOk result (out.new.items ≡ out.old.items ++ (text.now ++ decimal n)) }
{
    out.extend_from_slice(text)?;
    put_u64(alloc, out, n)?;
    Ok(())
}
