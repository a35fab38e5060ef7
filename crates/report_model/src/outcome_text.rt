//! Where a bisection stands, as text.
ghost use Rattle.std.specs.Prelude.{◌≡◌, ◌++◌, OnOk, OnErr};
ghost use Rattle.report_model.specs.Outcomes.{outcome_text};

use crate::NoMemory;
use crate::told::Told;
use line_text::{put_name, put_u64};
use std::alloc::Global;

/// Appends where a bisection stands, as a word and its commits in canonical spelling.
///
/// Linear in the text, which it takes memory for twice; changes nothing where there is no memory.
pub fn put_told(alloc: Global, out: &mut Vec<u8>, told: &Told) -> Result<(), NoMemory>
    ensures ok { OnOk result (out.new.items ≡ out.old.items ++ outcome_text told.now) }
    ensures err { OnErr result (out.new.items ≡ out.old.items) }
{
    let mut text = Vec::new(alloc);
    append_told(alloc, &mut text, told)?;
    out.extend_from_slice(&text)?;
    Ok(())
}

// Appends bytes.
fn put_bytes(out: &mut Vec<u8>, bytes: &[u8]) -> Result<(), NoMemory>
    ensures { OnOk result (out.new.items ≡ out.old.items ++ bytes.now) }
{
    out.extend_from_slice(bytes)?;
    Ok(())
}

fn append_told(alloc: Global, out: &mut Vec<u8>, told: &Told) -> Result<(), NoMemory>
    ensures { OnOk result (out.new.items ≡ out.old.items ++ outcome_text told.now) }
{
    match told {
        Told::Asks(commit) => {
            put_bytes(out, b"asks ")?;
            put_name(alloc, out, commit)?;
        }
        Told::Found { lo, hi } => {
            put_bytes(out, b"found ")?;
            put_name(alloc, out, lo)?;
            put_bytes(out, b" ")?;
            put_name(alloc, out, hi)?;
        }
        Told::Undecided { commit, status } => {
            put_bytes(out, b"undecided ")?;
            put_name(alloc, out, commit)?;
            put_bytes(out, b" ")?;
            put_u64(alloc, out, u64::from(*status))?;
        }
        Told::Faulted(commit) => {
            put_bytes(out, b"faulted ")?;
            put_name(alloc, out, commit)?;
        }
    }
    Ok(())
}
