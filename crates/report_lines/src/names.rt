//! Commits by name.
ghost use Rattle.std.specs.Prelude.{◌≡◌, IfOk};
ghost use Rattle.report_lines.specs.NumberedLines.{name_at, IsDeclared};

use crate::NoMemory;
use line_text::{Duplicate, Name};
use order_index::OrderIndex;
use std::alloc::Global;

// The name of the commit of a number.
pub(crate) fn name_of(alloc: Global, commits: &OrderIndex, number: u64) -> Result<Name, NoMemory>
    requires { IsDeclared commits.now number }
    ensures { IfOk result (λ name. name ≡ name_at commits.now number) }
{
    let Some(name) = commits.name_of(number) else {
        unreachable!();
    };
    Ok(name.copy(alloc)?)
}
