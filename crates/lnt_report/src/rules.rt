//! The rules of an LNT run, checked in their order.
ghost use Rattle.std.specs.{Prelude.{◌≡◌, map, Some, decimal, codes, Err}, List.list_all, Option.option_map};
ghost use Rattle.json_text.specs.View.{tree_of, entry_of};
ghost use Rattle.lnt_report.specs.{Rules.{break, under, is_number, may_stand, metric_break, metrics_break, test_break, tests_break, run_break, head_break, first_break, repeated_key}, Checks.{Tells, IsBroken}};

use crate::NoMemory;
use crate::fault::ReportFault;
use crate::look::{has_name_at, is_text_at, list_at, object_at};
use crate::repeated_key::repeated_key_in;
use json_text::{Json, Member, Shape};
use line_text::Text;
use std::alloc::Global;

// A rule that is broken at a member.
fn broken(alloc: Global, rule: u8, member: &str) -> ReportFault
    ensures { IsBroken rule member.now result }
{
    match Text::of(alloc, member) {
        Ok(member) => ReportFault::NotReport { rule, member },
        Err(_) => ReportFault::NoMemory,
    }
}

// A rule that is broken at a member of the test at this place.
fn broken_in_test(alloc: Global, rule: u8, place: usize, key: &str) -> ReportFault
    ensures { IsBroken rule (under (under (codes "tests") (decimal place)) key.now) result }
{
    match format!(in alloc; "tests.{place}.{key}") {
        Ok(member) => ReportFault::NotReport {
            rule,
            member: Text::from_string(member),
        },
        Err(_) => ReportFault::NoMemory,
    }
}

// A rule that is broken at the test at this place.
fn broken_at_test(alloc: Global, rule: u8, place: usize) -> ReportFault
    ensures { IsBroken rule (under (codes "tests") (decimal place)) result }
{
    match format!(in alloc; "tests.{place}") {
        Ok(member) => ReportFault::NotReport {
            rule,
            member: Text::from_string(member),
        },
        Err(_) => ReportFault::NoMemory,
    }
}

// Whether the value is a number.
fn is_number(value: &Json) -> bool
    ensures { result ≡ is_number (tree_of value.now) }
{
    match value.shape() {
        Shape::Number(_) => true,
        _ => false,
    }
}

// Whether each item is a number.
fn are_numbers(items: &[Json]) -> bool
    ensures { result ≡ list_all is_number (map tree_of items.now) }
{
    for item in items {
        if !is_number(item) {
            return false;
        }
    }
    true
}

// Whether a metric's value is a number, a list of numbers, a text or null.
#[tactic(auto, using(crate::proofs::Lists::trees_of_items))]
fn may_stand(value: &Json) -> bool
    ensures { result ≡ may_stand (tree_of value.now) }
{
    match value.shape() {
        Shape::Null | Shape::Number(_) | Shape::Text(_) => true,
        Shape::Bool(_) | Shape::Object(_) => false,
        Shape::List(items) => are_numbers(items),
    }
}

// The rules of a member of the test at this place: whether it is a metric, and what its value is.
fn check_metric(alloc: Global, place: usize, member: &Member) -> Result<(), ReportFault>
    ensures { Tells (metric_break (under (codes "tests") (decimal place)) (entry_of member.now))
        result }
{
    let key = member.key();
    if key == "name" {
        return Ok(());
    }
    if key.is_empty() || key.len() > 64 {
        return Err(broken_at_test(alloc, 12, place));
    }
    if !may_stand(member.value()) {
        return Err(broken_in_test(alloc, 13, place, key));
    }
    Ok(())
}

// The same of each member.
fn check_metrics(alloc: Global, place: usize, members: &[Member]) -> Result<(), ReportFault>
    ensures { Tells (metrics_break (under (codes "tests") (decimal place))
        (map entry_of members.now)) result }
{
    for member in members {
        check_metric(alloc, place, member)?;
    }
    Ok(())
}

// The rules of the test at this place.
#[tactic(auto, using(crate::proofs::Lists::entries_of_members))]
fn check_test(alloc: Global, place: usize, test: &Json) -> Result<(), ReportFault>
    ensures { Tells (test_break (under (codes "tests") (decimal place)) (tree_of test.now)) result }
{
    let Shape::Object(members) = test.shape() else {
        return Err(broken_at_test(alloc, 10, place));
    };
    if !has_name_at(members, "name") {
        return Err(broken_in_test(alloc, 11, place, "name"));
    }
    check_metrics(alloc, place, members)
}

// The same of each test.
fn check_tests(alloc: Global, tests: &[Json]) -> Result<(), ReportFault>
    ensures { Tells (tests_break 0 (map tree_of tests.now)) result }
{
    for (place, test) in tests.iter().enumerate() {
        check_test(alloc, place, test)?;
    }
    Ok(())
}

// The rules of the run and its tests.
fn check_run(alloc: Global, members: &[Member]) -> Result<(), ReportFault>
    ensures { Tells (run_break (map entry_of members.now)) result }
{
    let Some(run) = object_at(members, "run") else {
        return Err(broken(alloc, 7, "run"));
    };
    if !has_name_at(run, "llvm_project_revision") {
        return Err(broken(alloc, 8, "run.llvm_project_revision"));
    }
    let Some(tests) = list_at(members, "tests") else {
        return Err(broken(alloc, 9, "tests"));
    };
    check_tests(alloc, tests)
}

// The rules of the version and the machine, and those after them.
fn check_head(alloc: Global, members: &[Member]) -> Result<(), ReportFault>
    ensures { Tells (head_break (map entry_of members.now)) result }
{
    if !is_text_at(members, "format_version", "2") {
        return Err(broken(alloc, 3, "format_version"));
    }
    let Some(machine) = object_at(members, "machine") else {
        return Err(broken(alloc, 4, "machine"));
    };
    if !has_name_at(machine, "name") {
        return Err(broken(alloc, 5, "machine.name"));
    }
    check_run(alloc, members)
}

// No key comes again in its object, anywhere.
fn check_keys(alloc: Global, value: &Json) -> Result<(), ReportFault>
    ensures { Tells (option_map (break 2) (repeated_key (tree_of value.now))) result }
{
    match repeated_key_in(alloc, value)? {
        Some(member) => Err(ReportFault::NotReport { rule: 2, member }),
        None => Ok(()),
    }
}

// Every rule, in their order.
#[tactic(auto, using(crate::proofs::Lists::entries_of_members))]
pub(crate) fn check_rules(alloc: Global, value: &Json) -> Result<(), ReportFault>
    ensures { Tells (first_break (tree_of value.now)) result }
{
    let Shape::Object(members) = value.shape() else {
        return Err(broken(alloc, 1, "."));
    };
    check_keys(alloc, value)?;
    check_head(alloc, members)
}
