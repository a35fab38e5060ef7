//! The numbers of a run's tests, gathered as samples in the order of the text.
ghost use Rattle.std.specs.{Prelude.{◌≡◌, ◌+◌, ◌<◌, ◌≤◌, ◌^◌, if◌then◌else◌, unsigned_abs, OnOk, [], ◌∷◌, ◌++◌, map, length, true, IfOk, MatchResult}, List.{flat_map, sum_by}};
ghost use Rattle.metric_table.specs.{Limits.most, declared.limits.Limit.TheVariants.RunSamples};
ghost use Rattle.json_text.specs.View.{tree_of, entry_of};
ghost use Rattle.lnt_report.specs.{Numbers.{reading, item_readings, value_readings, is_metric, is_text_or_null, entry_readings, entry_ignored, test_readings, test_ignored}, Gathering.{measurement, Gathers, Leaves, IsRefusal, IsNamed}};

use crate::NoMemory;
use crate::fault::ReportFault;
use crate::gathered::Gathered;
use crate::look::name_at;
use json_text::{Json, Member, Shape};
use line_text::{Duplicate, Name, NameError, Text};
use metric_table::Limit;
use metric_value::value_of;
use sample_model::{Sample, Samples};
use std::alloc::Global;

// A number of this test and metric is no sample.
fn out_of_range(alloc: Global, test: &Name, metric: &Name) -> ReportFault
    ensures { IsNamed test.now metric.now result }
{
    match copies(alloc, test, metric) {
        Ok((test, metric)) => ReportFault::OutOfRange { test, metric },
        Err(_) => ReportFault::NoMemory,
    }
}

// The texts of two names.
fn copies(alloc: Global, test: &Name, metric: &Name) -> Result<(Text, Text), NoMemory>
    ensures { IfOk result (λ made. (made.0 ≡ test.now) × (made.1 ≡ metric.now)) }
{
    Ok((
        Text::of(alloc, test.as_str())?,
        Text::of(alloc, metric.as_str())?,
    ))
}

// The metric that a key is.
fn metric_of(alloc: Global, key: &str) -> Result<Name, NoMemory>
    requires { is_metric key.now ≡ true }
    ensures { IfOk result (λ metric. metric ≡ key.now) }
{
    match Name::of_text(alloc, key.as_bytes()) {
        Ok(metric) => Ok(metric),
        Err(NameError::NoMemory) => Err(NoMemory),
        Err(NameError::BadName) => unreachable!(),
    }
}

// Adds a sample, unless there are as many as a run may have.
fn keep(
    alloc: Global,
    gathered: &mut Gathered,
    test: &Name,
    metric: &Name,
    value: i64,
) -> Result<(), NoMemory>
    requires short { length metric.now ≤ 64 }
    requires in_range { unsigned_abs value ≤ 10 ^ 16 }
    ensures room { length gathered.old.samples < most RunSamples
        → OnOk result (gathered.new.samples
        ≡ gathered.old.samples ++ measurement test.now metric.now value ∷ []) }
    ensures same { length gathered.old.samples < most RunSamples
        → gathered.new.over ≡ gathered.old.over }
    ensures full { most RunSamples ≤ length gathered.old.samples
        → gathered.new.samples ≡ gathered.old.samples }
    ensures over { most RunSamples ≤ length gathered.old.samples → gathered.new.over ≡ true }
    ensures ignored { gathered.new.ignored ≡ gathered.old.ignored }
{
    if gathered.samples.len() as u64 >= Limit::RunSamples.most() {
        gathered.over = true;
        return Ok(());
    }
    let sample = Sample {
        test: test.copy(alloc)?,
        metric: metric.copy(alloc)?,
        value,
    };
    gathered.samples.push(sample)?;
    Ok(())
}

// The sample of a number, by its spelling.
fn read_number(
    alloc: Global,
    gathered: &mut Gathered,
    test: &Name,
    metric: &Name,
    spelling: &str,
) -> Result<(), ReportFault>
    requires { is_metric metric.now ≡ true }
    ensures { Gathers (reading test.now metric.now spelling.now ∷ [])
        0 gathered.old gathered.new result }
{
    match value_of(metric.as_str().as_bytes(), spelling.as_bytes()) {
        Ok(value) => Ok(keep(alloc, gathered, test, metric, value)?),
        Err(_) => Err(out_of_range(alloc, test, metric)),
    }
}

// The sample of an item of a list, where it is a number.
fn read_item(
    alloc: Global,
    gathered: &mut Gathered,
    test: &Name,
    metric: &Name,
    item: &Json,
) -> Result<(), ReportFault>
    requires { is_metric metric.now ≡ true }
    ensures { Gathers (item_readings test.now metric.now (tree_of item.now))
        0 gathered.old gathered.new result }
{
    match item.shape() {
        Shape::Number(spelling) => read_number(alloc, gathered, test, metric, spelling),
        _ => Ok(()),
    }
}

// The samples of the items of a list.
fn read_items(
    alloc: Global,
    gathered: &mut Gathered,
    test: &Name,
    metric: &Name,
    items: &[Json],
) -> Result<(), ReportFault>
    requires { is_metric metric.now ≡ true }
    ensures { Gathers (flat_map (item_readings test.now metric.now) (map tree_of items.now))
        0 gathered.old gathered.new result }
{
    for item in items {
        read_item(alloc, gathered, test, metric, item)?;
    }
    Ok(())
}

// Counts a member that gives no sample.
fn ignore(gathered: &mut Gathered)
    ensures { Gathers [] 1 gathered.old gathered.new (Ok tt) }
{
    gathered.ignored = gathered.ignored.saturating_add(1);
}

// The samples of a member's value: a number, or a list of them; a text and null are counted.
fn read_metric(
    alloc: Global,
    gathered: &mut Gathered,
    test: &Name,
    metric: &Name,
    value: &Json,
) -> Result<(), ReportFault>
    requires { is_metric metric.now ≡ true }
    ensures { Gathers (value_readings test.now metric.now (tree_of value.now))
        (if is_text_or_null (tree_of value.now) then 1 else 0) gathered.old gathered.new result }
{
    match value.shape() {
        Shape::Number(spelling) => read_number(alloc, gathered, test, metric, spelling),
        Shape::List(items) => read_items(alloc, gathered, test, metric, items),
        Shape::Null => Ok(ignore(gathered)),
        Shape::Text(_) => Ok(ignore(gathered)),
        Shape::Bool(_) => Ok(()),
        Shape::Object(_) => Ok(()),
    }
}

// The samples of a member of a test, where it is a metric.
fn read_member(
    alloc: Global,
    gathered: &mut Gathered,
    test: &Name,
    member: &Member,
) -> Result<(), ReportFault>
    ensures { Gathers (entry_readings test.now (entry_of member.now))
        (entry_ignored (entry_of member.now)) gathered.old gathered.new result }
{
    let key = member.key();
    if !is_metric(key) {
        return Ok(());
    }
    let metric = metric_of(alloc, key)?;
    read_metric(alloc, gathered, test, &metric, member.value())
}

// The samples of the members of a test.
fn read_members(
    alloc: Global,
    gathered: &mut Gathered,
    test: &Name,
    members: &[Member],
) -> Result<(), ReportFault>
    ensures { Gathers (flat_map (entry_readings test.now) (map entry_of members.now))
        (sum_by entry_ignored (map entry_of members.now)) gathered.old gathered.new result }
{
    for member in members {
        read_member(alloc, gathered, test, member)?;
    }
    Ok(())
}

// The samples of a test: of its members, where it has a name.
fn read_test(alloc: Global, gathered: &mut Gathered, value: &Json) -> Result<(), ReportFault>
    ensures { Gathers (test_readings (tree_of value.now))
        (test_ignored (tree_of value.now)) gathered.old gathered.new result }
{
    let Shape::Object(members) = value.shape() else {
        return Ok(());
    };
    let Some(test) = name_at(alloc, members, "name")? else {
        return Ok(());
    };
    read_members(alloc, gathered, &test, members)
}

// The samples of the tests, one after the other.
fn read_each(alloc: Global, gathered: &mut Gathered, tests: &[Json]) -> Result<(), ReportFault>
    ensures { Gathers (flat_map test_readings (map tree_of tests.now))
        (sum_by test_ignored (map tree_of tests.now)) gathered.old gathered.new result }
{
    for test in tests {
        read_test(alloc, gathered, test)?;
    }
    Ok(())
}

// Whether a key is a metric: it isn't `name`, and has 1 to 64 bytes.
fn is_metric(key: &str) -> bool
    ensures { result ≡ is_metric key.now }
{
    key != "name" && !key.is_empty() && key.len() <= 64
}

// The samples of the tests, in the order of the text. Linear in the tests.
pub(crate) fn read_tests(alloc: Global, tests: &[Json]) -> Result<Gathered, ReportFault>
    ensures { MatchResult result
        (λ gathered. Leaves (flat_map test_readings (map tree_of tests.now))
        (sum_by test_ignored (map tree_of tests.now)) [] 0 gathered)
        (λ fault. IsRefusal (flat_map test_readings (map tree_of tests.now)) fault) }
{
    let mut gathered = Gathered {
        samples: Samples::new(alloc),
        over: false,
        ignored: 0,
    };
    read_each(alloc, &mut gathered, tests)?;
    Ok(gathered)
}
