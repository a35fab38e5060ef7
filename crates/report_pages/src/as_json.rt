//! The JSON form of a report.
ghost use Rattle.std.specs.Prelude.{◌≡◌, ◌++◌, IfOk, OnOk, OnErr};
ghost use Rattle.serde_json.specs.{Data.string, View.view};
ghost use Rattle.report_model.specs.Outcomes.{outcome_text};
ghost use Rattle.report_pages.specs.{Json.{count_or_null, centre_or_null, series_of, series_data, regression_data, job_data, pages_json}, Lists.lists_text};

use crate::NoMemory;
use crate::items::{Item, put_items, put_quoted};
use crate::text::{put_bytes, put_value};
use line_text::{Name, put_u64};
use report_model::{JobLine, Pages, RegressionLine, SeriesLine, Told, put_told};
use serde_json::{Value, json};
use std::alloc::{AllocError, Global};

// The text of a value of a metric, or null.
fn centre_value(alloc: Global, metric: &Name, centre: Option<i64>) -> Result<Value, NoMemory>
    ensures { IfOk result (λ v. view v ≡ centre_or_null metric.now centre) }
{
    let Some(centre) = centre else {
        return Ok(Value::Null);
    };
    let mut text = Vec::new(alloc);
    put_value(alloc, &mut text, metric, centre)?;
    text_value(text)
}

// The text of these bytes, which are text.
fn text_value(text: Vec<u8>) -> Result<Value, NoMemory>
    ensures { IfOk result (λ v. view v ≡ string text.items) }
{
    match String::from_utf8(text) {
        Ok(text) => Ok(Value::String(text)),
        Err(_) => Err(NoMemory),
    }
}

fn count_value(count: Option<u64>) -> Value
    ensures { view result ≡ count_or_null count }
{
    match count {
        Some(count) => Value::from(count),
        None => Value::Null,
    }
}

fn outcome_value(alloc: Global, outcome: &Told) -> Result<Value, NoMemory>
    ensures { IfOk result (λ v. view v ≡ string (outcome_text outcome.now)) }
{
    let mut text = Vec::new(alloc);
    put_told(alloc, &mut text, outcome)?;
    text_value(text)
}

// A series of these members.
fn series_object(
    alloc: Global,
    line: &SeriesLine,
    centre: Value,
    changes: Value,
) -> Result<Value, AllocError>
    ensures { IfOk result (λ v. view v ≡ series_of line.now (view centre) (view changes)) }
{
    let metric = line.metric.as_str();
    let test = line.test.as_str();
    json!(in alloc; {
        "centre": centre,
        "changes": changes,
        "metric": metric,
        "positions": line.positions,
        "samples": line.samples,
        "test": test,
    })
}

fn series_value(alloc: Global, line: &SeriesLine) -> Result<Value, NoMemory>
    ensures { IfOk result (λ v. view v ≡ series_data line.now) }
{
    let centre = centre_value(alloc, &line.metric, line.centre)?;
    let made = series_object(alloc, line, centre, count_value(line.changes))?;
    Ok(made)
}

fn regression_value(alloc: Global, line: &RegressionLine) -> Result<Value, NoMemory>
    ensures { IfOk result (λ v. view v ≡ regression_data line.now) }
{
    let after = line.after.as_str();
    let before = line.before.as_str();
    let metric = line.metric.as_str();
    let state = line.state.word();
    let test = line.test.as_str();
    let made = json!(in alloc; {
        "after": after,
        "before": before,
        "metric": metric,
        "number": line.number,
        "state": state,
        "test": test,
    })?;
    Ok(made)
}

fn job_value(alloc: Global, line: &JobLine) -> Result<Value, NoMemory>
    ensures { IfOk result (λ v. view v ≡ job_data line.now) }
{
    let outcome = outcome_value(alloc, &line.outcome)?;
    let made = json!(in alloc; {
        "job": line.job,
        "outcome": outcome,
        "questions": line.questions,
        "range": line.range,
    })?;
    Ok(made)
}

impl Item for SeriesLine {
    ghost shown = { series_data };

    #[tactic(auto, using(crate::proofs::Floats::series_without))]
    fn to_value(&self, alloc: Global) -> Result<Value, NoMemory> {
        series_value(alloc, self)
    }
}

impl Item for RegressionLine {
    ghost shown = { regression_data };

    fn to_value(&self, alloc: Global) -> Result<Value, NoMemory> {
        regression_value(alloc, self)
    }
}

impl Item for JobLine {
    ghost shown = { job_data };

    fn to_value(&self, alloc: Global) -> Result<Value, NoMemory> {
        job_value(alloc, self)
    }
}

/// Appends the JSON form of a report: one line with no white space, the members of each object in the order of their
/// keys.
///
/// Linear in the text, which it takes memory for twice; changes nothing where there is no memory.
pub fn put_json(alloc: Global, out: &mut Vec<u8>, pages: &Pages) -> Result<(), NoMemory>
    ensures ok { OnOk result (out.new.items ≡ out.old.items ++ pages_json pages.now) }
    ensures err { OnErr result (out.new.items ≡ out.old.items) }
{
    let mut text = Vec::new(alloc);
    put_lists(alloc, &mut text, pages)?;
    put_bytes(&mut text, b",\"step\":")?;
    put_u64(alloc, &mut text, pages.step)?;
    put_bytes(&mut text, b"}\n")?;
    out.extend_from_slice(&text)?;
    Ok(())
}

// The members before the last: each item is made, written and let go of before the next.
fn put_lists(alloc: Global, out: &mut Vec<u8>, pages: &Pages) -> Result<(), NoMemory>
    ensures { OnOk result (out.new.items ≡ out.old.items ++ lists_text pages.now) }
{
    put_bytes(out, b"{\"jobs\":")?;
    put_items(alloc, out, pages.jobs.as_slice())?;
    put_bytes(out, b",\"machine\":")?;
    put_quoted(alloc, out, pages.machine.as_str())?;
    put_bytes(out, b",\"regressions\":")?;
    put_items(alloc, out, pages.regressions.as_slice())?;
    put_bytes(out, b",\"series\":")?;
    put_items(alloc, out, pages.series.as_slice())?;
    Ok(())
}
