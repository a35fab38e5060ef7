//! The text form of a report.
ghost use Rattle.std.specs.Prelude.{◌≡◌, ℕ, List, ◌++◌, flat_map, codes, decimal, OnOk, OnErr};
ghost use Rattle.regression_state.specs.Moves.{word};
ghost use Rattle.line_text.specs.Names.{spelling};
ghost use Rattle.report_pages.specs.{Alignment.{spaces, left_aligned, right_aligned}, Text.{count_text, value_text, centre_text, series_text, regression_text, job_text, pages_text}};

use crate::NoMemory;
use fixed_value::put_fixed;
use line_text::{Name, put_name, put_u64};
use metric_table::decimals;
use regression_state::State;
use report_model::{JobLine, Pages, RegressionLine, SeriesLine, put_told};
use std::alloc::Global;

// What has a line of its own in the text form.
trait Row {
    ghost text: { Self → List ℕ };

    // Appends the line.
    fn put(&self, alloc: Global, out: &mut Vec<u8>) -> Result<(), NoMemory>
        ensures { OnOk result (out.new.items ≡ out.old.items ++ text self.now) };
}

// Appends bytes.
pub(crate) fn put_bytes(out: &mut Vec<u8>, bytes: &[u8]) -> Result<(), NoMemory>
    ensures { OnOk result (out.new.items ≡ out.old.items ++ bytes.now) }
{
    out.extend_from_slice(bytes)?;
    Ok(())
}

// Appends so many spaces.
fn put_spaces(out: &mut Vec<u8>, count: usize) -> Result<(), NoMemory>
    ensures { OnOk result (out.new.items ≡ out.old.items ++ spaces count) }
{
    for i in 0..count {
        let _ = i;
        out.push(b' ')?;
    }
    Ok(())
}

// Appends a text, and a number behind it.
fn put_numbered(alloc: Global, out: &mut Vec<u8>, text: &[u8], n: u64) -> Result<(), NoMemory>
    ensures { OnOk result (out.new.items ≡ out.old.items ++ (text.now ++ decimal n)) }
{
    put_bytes(out, text)?;
    put_u64(alloc, out, n)?;
    Ok(())
}

// Appends a name's spelling, at the left of a column.
fn put_name_left(
    alloc: Global,
    out: &mut Vec<u8>,
    name: &Name,
    width: usize,
) -> Result<(), NoMemory>
    ensures { OnOk result
        (out.new.items ≡ out.old.items ++ left_aligned width (spelling name.now)) }
{
    let mut word = Vec::new(alloc);
    put_name(alloc, &mut word, name)?;
    put_bytes(out, &word)?;
    put_spaces(out, width.saturating_sub(word.len()))?;
    Ok(())
}

// Appends a word, at the right of a column.
fn put_right(out: &mut Vec<u8>, word: &[u8], width: usize) -> Result<(), NoMemory>
    ensures { OnOk result (out.new.items ≡ out.old.items ++ right_aligned width word.now) }
{
    put_spaces(out, width.saturating_sub(word.len()))?;
    put_bytes(out, word)?;
    Ok(())
}

// Appends a count, or `-`, at the right of a column of 8 behind a space.
fn put_count(alloc: Global, out: &mut Vec<u8>, count: Option<u64>) -> Result<(), NoMemory>
    ensures { OnOk result (out.new.items
        ≡ out.old.items ++ (codes " " ++ right_aligned 8 (count_text count))) }
{
    let mut word = Vec::new(alloc);
    match count {
        Some(count) => put_u64(alloc, &mut word, count)?,
        None => put_bytes(&mut word, b"-")?,
    }
    put_bytes(out, b" ")?;
    put_right(out, &word, 8)?;
    Ok(())
}

// The text of a value of a metric.
pub(crate) fn put_value(
    alloc: Global,
    out: &mut Vec<u8>,
    metric: &Name,
    value: i64,
) -> Result<(), NoMemory>
    ensures { OnOk result (out.new.items ≡ out.old.items ++ value_text metric.now value) }
{
    put_fixed(alloc, out, value, decimals(metric.as_str().as_bytes()))?;
    Ok(())
}

// Appends a centre, or `-`, at the right of a column of 20 behind a space.
fn put_centre(
    alloc: Global,
    out: &mut Vec<u8>,
    metric: &Name,
    centre: Option<i64>,
) -> Result<(), NoMemory>
    ensures { OnOk result (out.new.items
        ≡ out.old.items ++ (codes " " ++ right_aligned 20 (centre_text metric.now centre))) }
{
    let mut word = Vec::new(alloc);
    match centre {
        Some(value) => put_value(alloc, &mut word, metric, value)?,
        None => put_bytes(&mut word, b"-")?,
    }
    put_bytes(out, b" ")?;
    put_right(out, &word, 20)?;
    Ok(())
}

impl Row for SeriesLine {
    ghost text = { series_text };

    fn put(&self, alloc: Global, out: &mut Vec<u8>) -> Result<(), NoMemory> {
        put_bytes(out, b"series ")?;
        put_names(alloc, out, &self.test, &self.metric)?;
        put_counts(alloc, out, self)?;
        put_centre(alloc, out, &self.metric, self.centre)?;
        put_bytes(out, b"\n")?;
        Ok(())
    }
}

// Appends a space and a name's spelling.
fn put_word(alloc: Global, out: &mut Vec<u8>, name: &Name) -> Result<(), NoMemory>
    ensures { OnOk result (out.new.items ≡ out.old.items ++ (codes " " ++ spelling name.now)) }
{
    put_bytes(out, b" ")?;
    put_name(alloc, out, name)?;
    Ok(())
}

impl Row for RegressionLine {
    ghost text = { regression_text };

    fn put(&self, alloc: Global, out: &mut Vec<u8>) -> Result<(), NoMemory> {
        put_numbered(alloc, out, b"regression ", self.number)?;
        put_word(alloc, out, &self.test)?;
        put_word(alloc, out, &self.metric)?;
        put_word(alloc, out, &self.before)?;
        put_word(alloc, out, &self.after)?;
        put_state(out, self.state)?;
        Ok(())
    }
}

// Appends a space, a state's word and the end of the line.
fn put_state(out: &mut Vec<u8>, state: State) -> Result<(), NoMemory>
    ensures { OnOk result (out.new.items
        ≡ out.old.items ++ (codes " " ++ word state ++ codes "\n")) }
{
    put_bytes(out, b" ")?;
    let word = state.word();
    put_bytes(out, word.as_bytes())?;
    put_bytes(out, b"\n")?;
    Ok(())
}

// Appends a name of a test and one of a metric, in their columns.
fn put_names(alloc: Global, out: &mut Vec<u8>, test: &Name, metric: &Name) -> Result<(), NoMemory>
    ensures { OnOk result (out.new.items ≡ out.old.items
        ++ (left_aligned 40 (spelling test.now) ++ codes " "
        ++ left_aligned 16 (spelling metric.now))) }
{
    put_name_left(alloc, out, test, 40)?;
    put_bytes(out, b" ")?;
    put_name_left(alloc, out, metric, 16)?;
    Ok(())
}

// Appends three counts, in their columns.
fn put_counts(alloc: Global, out: &mut Vec<u8>, line: &SeriesLine) -> Result<(), NoMemory>
    ensures { OnOk result (out.new.items ≡ out.old.items
        ++ (codes " " ++ right_aligned 8 (decimal line.now.samples)
        ++ codes " " ++ right_aligned 8 (decimal line.now.positions)
        ++ codes " " ++ right_aligned 8 (count_text line.now.changes))) }
{
    put_count(alloc, out, Some(line.samples))?;
    put_count(alloc, out, Some(line.positions))?;
    put_count(alloc, out, line.changes)?;
    Ok(())
}

impl Row for JobLine {
    ghost text = { job_text };

    fn put(&self, alloc: Global, out: &mut Vec<u8>) -> Result<(), NoMemory> {
        put_numbered(alloc, out, b"job ", self.job)?;
        put_numbered(alloc, out, b" range ", self.range)?;
        put_numbered(alloc, out, b" questions ", self.questions)?;
        put_bytes(out, b" ")?;
        put_told(alloc, out, &self.outcome)?;
        put_bytes(out, b"\n")?;
        Ok(())
    }
}

// Appends the lines, one after another.
fn put_all<T: Row>(alloc: Global, out: &mut Vec<u8>, rows: &[T]) -> Result<(), NoMemory>
    ensures { OnOk result
        (out.new.items ≡ out.old.items ++ flat_map (λ x. T.Row.text x) rows.now) }
{
    for row in rows {
        row.put(alloc, out)?;
    }
    Ok(())
}

/// Appends the text form of a report, a line for each series, each regression and each bisection.
///
/// Linear in the text, which it takes memory for twice; changes nothing where there is no memory.
pub fn put_text(alloc: Global, out: &mut Vec<u8>, pages: &Pages) -> Result<(), NoMemory>
    ensures ok { OnOk result (out.new.items ≡ out.old.items ++ pages_text pages.now) }
    ensures err { OnErr result (out.new.items ≡ out.old.items) }
{
    let mut text = Vec::new(alloc);
    put_all(alloc, &mut text, pages.series.as_slice())?;
    put_all(alloc, &mut text, pages.regressions.as_slice())?;
    put_all(alloc, &mut text, pages.jobs.as_slice())?;
    out.extend_from_slice(&text)?;
    Ok(())
}
