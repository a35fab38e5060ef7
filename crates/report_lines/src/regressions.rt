//! The lines of regressions.
ghost use Rattle.std.specs.Prelude.{◌≡◌, All, IfOk};
ghost use Rattle.track_model.specs.Reports.{numbered};
ghost use Rattle.report_lines.specs.NumberedLines.{followed_line, HasEnds};

use crate::NoMemory;
use crate::names::name_of;
use follow_index::{Followed, RegressionIndex};
use line_text::Duplicate;
use order_index::OrderIndex;
use report_model::{RegressionLine, RegressionLines};
use std::alloc::Global;

/// A line for each regression, by number. Linear in the regressions, but for look-ups.
pub fn regression_lines(
    alloc: Global,
    commits: &OrderIndex,
    regressions: &RegressionIndex,
) -> Result<RegressionLines, NoMemory>
    requires { All (HasEnds commits.now) regressions.now }
    ensures { IfOk result
        (λ lines. lines ≡ numbered (followed_line commits.now) 1 regressions.now) }
{
    let mut lines = RegressionLines::new(alloc);
    for i in 0..regressions.len() {
        let number = i + 1;
        let Some(followed) = regressions.get(number) else {
            unreachable!();
        };
        lines.push(line(alloc, commits, number, followed)?)?;
    }
    Ok(lines)
}

// The line of a regression.
fn line(
    alloc: Global,
    commits: &OrderIndex,
    number: u64,
    followed: &Followed,
) -> Result<RegressionLine, NoMemory>
    requires { HasEnds commits.now followed.now }
    ensures { IfOk result (λ line. line ≡ followed_line commits.now number followed.now) }
{
    let raised = &followed.raised;
    Ok(RegressionLine {
        number,
        test: raised.test.copy(alloc)?,
        metric: raised.metric.copy(alloc)?,
        before: name_of(alloc, commits, raised.before)?,
        after: name_of(alloc, commits, raised.after)?,
        state: followed.state,
    })
}
