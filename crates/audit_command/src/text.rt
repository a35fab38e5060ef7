//! The line that an audit prints.
ghost use Rattle.std.specs.Prelude.{◌≡◌, ◌++◌, decimal, OnOk};
ghost use Rattle.audit_command.specs.Text.{shown_text};

use line_text::{NoMemory, put_u64};
use std::alloc::Global;

/// Puts the line of files that fit together behind some bytes: how many machines, steps and requests they have.
///
/// Where there is no memory, a part of it may stand behind them.
pub fn put_shown(
    alloc: Global,
    out: &mut Vec<u8>,
    machines: u64,
    steps: u64,
    requests: u64,
) -> Result<(), NoMemory>
    ensures { OnOk result (out.new.items
        ≡ out.old.items ++ shown_text machines steps requests) }
{
    put_count(alloc, out, b"audited machines ", machines)?;
    put_count(alloc, out, b" steps ", steps)?;
    put_count(alloc, out, b" requests ", requests)?;
    out.push(b'\n')?;
    Ok(())
}

// Puts a number and the words before it.
fn put_count(alloc: Global, out: &mut Vec<u8>, words: &[u8], number: u64) -> Result<(), NoMemory>
    ensures { OnOk result (out.new.items ≡ out.old.items ++ (words.now ++ decimal number)) }
{
    out.extend_from_slice(words)?;
    put_u64(alloc, out, number)
}
