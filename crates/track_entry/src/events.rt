//! What becomes of regressions and bisections, read from their words.
ghost use Rattle.std.specs.Prelude.{◌≤◌, length, drop};
ghost use Rattle.line_text.specs.Lines.{words_of};
ghost use Rattle.track_entry.specs.declared.kind.Kind.TheVariants as kind;
ghost use Rattle.track_entry.specs.Readings.{ReadsKind};

use crate::fault::EntryResult;
use crate::words::{byte_at, end_at, number_at, pair_at, series_pair_at, state_at};
use history_model::{Entry, JobEvent, Raised, RegressionEvent};
use line_text::Names;
use std::alloc::Global;

pub fn read_raise(alloc: Global, names: &mut Names, text: &[u8], at: usize) -> EntryResult
    requires { at ≤ length text.now }
    ensures { ReadsKind kind.Raise (words_of (drop at text.now)) result }
{
    let (test, metric, before, after, end) = series_pair_at(alloc, names, text, at)?;
    end_at(text, end)?;
    let raised = Raised {
        test,
        metric,
        before,
        after,
    };
    let event = RegressionEvent::Raise { raised };
    Ok(Entry::Regression { event })
}

pub fn read_move(text: &[u8], at: usize) -> EntryResult
    requires { at ≤ length text.now }
    ensures { ReadsKind kind.Move (words_of (drop at text.now)) result }
{
    let (regression, behind_number) = number_at(text, at)?;
    let (state, end) = state_at(text, behind_number)?;
    end_at(text, end)?;
    let event = RegressionEvent::Move { regression, state };
    Ok(Entry::Regression { event })
}

pub fn read_answer(text: &[u8], at: usize) -> EntryResult
    requires { at ≤ length text.now }
    ensures { ReadsKind kind.Answer (words_of (drop at text.now)) result }
{
    let (job, place, behind_place) = pair_at(text, at)?;
    let (status, end) = byte_at(text, behind_place)?;
    end_at(text, end)?;
    let event = JobEvent::Answer { job, place, status };
    Ok(Entry::Job { event })
}
