//! A run read: from the bytes over the tree to the run or the fault.
ghost use Rattle.std.specs.Prelude.{◌≡◌, ◌⊎◌, ◌≤◌, Result, Err, map, length, None, true, false, All, IfOk, IfErr};
ghost use Rattle.json_text.specs.{Tree.{Tree, object}, View.{tree_of, members_of}, View.entry_of};
ghost use Rattle.metric_table.specs.{Limits.most, declared.limits.Limit.TheVariants.RunSamples};
ghost use Rattle.lnt_report.specs.{Rules.{machine_name, commit_name, first_break, IsSound}, Runs.{Report, IsGiven}, Checks.{IsAnswerOf, IsOfText}, Outcomes.{IsDue, IsAnswer, OneAnswer}};

use crate::NoMemory;
use crate::fault::ReportFault;
use crate::gather::read_tests;
use crate::gathered::Gathered;
use crate::look::{list_at, name_at, object_at};
use crate::rules::check_rules;
use crate::run::LntRun;
use json_text::{Json, JsonFault, Member, Shape, one_answer_law, read_json};
use line_text::Name;
use metric_table::Limit;
use metric_value::value_law;
use std::alloc::Global;

// The name of the machine.
fn machine_of(alloc: Global, top: &[Member]) -> Result<Option<Name>, NoMemory>
    ensures { IfOk result (λ name. name ≡ machine_name (map entry_of top.now)) }
{
    match object_at(top, "machine") {
        Some(machine) => name_at(alloc, machine, "name"),
        None => Ok(None),
    }
}

// The name of the commit.
fn commit_of(alloc: Global, top: &[Member]) -> Result<Option<Name>, NoMemory>
    ensures { IfOk result (λ name. name ≡ commit_name (map entry_of top.now)) }
{
    match object_at(top, "run") {
        Some(run) => name_at(alloc, run, "llvm_project_revision"),
        None => Ok(None),
    }
}

// The run of these names and samples, unless there are too many.
fn run_of(machine: Name, commit: Name, gathered: Gathered) -> Result<LntRun, ReportFault>
    requires { All IsGiven gathered.samples }
    ensures run { IfOk result (λ run. run ≡ record {
      machine = machine;
      commit = commit;
      samples = gathered.samples;
      ignored = gathered.ignored;
    }) }
    ensures all { IfOk result (λ _. gathered.over ≡ false) }
    ensures few { IfOk result (λ _. length gathered.samples ≤ most RunSamples) }
    ensures full { IfErr result (λ fault. fault ≡ ReportFault.Full RunSamples) }
    ensures over { IfErr result (λ _. gathered.over ≡ true) }
{
    let Gathered {
        samples,
        over,
        ignored,
    } = gathered;
    samples.limits();
    if over {
        return Err(ReportFault::Full(Limit::RunSamples));
    }
    Ok(LntRun {
        machine,
        commit,
        samples,
        ignored,
    })
}

// The run of the members at the top of a tree for which no rule is broken.
fn read_top(alloc: Global, top: &[Member]) -> Result<LntRun, ReportFault>
    requires { IsSound (map entry_of top.now) }
    ensures { (tree : Tree) → tree ≡ object (members_of (map entry_of top.now))
        → first_break tree ≡ None → IsAnswerOf tree result }
{
    let Some(machine) = machine_of(alloc, top)? else {
        unreachable!()
    };
    let Some(commit) = commit_of(alloc, top)? else {
        unreachable!()
    };
    let Some(tests) = list_at(top, "tests") else {
        unreachable!()
    };
    let gathered = read_tests(alloc, tests)?;
    run_of(machine, commit, gathered)
}

// The run of a tree.
fn read_tree(alloc: Global, value: &Json) -> Result<LntRun, ReportFault>
    ensures { IsAnswerOf (tree_of value.now) result }
{
    check_rules(alloc, value)?;
    let Shape::Object(top) = value.shape() else {
        unreachable!()
    };
    read_top(alloc, top)
}

// A fault of the text.
fn of_json(fault: JsonFault) -> ReportFault
    ensures { IsOfText fault result }
{
    match fault {
        JsonFault::NotText(place) => ReportFault::NotText(place),
        JsonFault::NotJson(place) => ReportFault::NotJson(place),
        JsonFault::TooDeep(place) => ReportFault::TooDeep(place),
        JsonFault::NoMemory => ReportFault::NoMemory,
    }
}

/// The law that bytes are due one answer at most: a run, or one fault. Does nothing: its contract is what it is for.
pub fn one_due_law()
    ensures { OneAnswer }
{
    value_law();
}

/// The LNT run of the bytes, by the profile of docs/FORMATS.md.
///
/// Linear in the bytes, but for the search for a key that comes twice, which takes the logarithm of
/// an object's members for each; takes memory for the tree, the keys of the objects that are open,
/// and the run.
pub fn read_report(alloc: Global, bytes: &[u8]) -> Result<LntRun, ReportFault>
    // The answer is the one that the bytes are due, unless memory runs out.
    ensures due { IsAnswer bytes.now result }
    // And what the bytes are due is the answer, unless memory runs out.
    ensures only { (due : Result Report ReportFault) → IsDue bytes.now due
        → (result ≡ due) ⊎ (result ≡ Err ReportFault.NoMemory) }
{
    one_answer_law(bytes);
    value_law();
    match read_json(alloc, bytes) {
        Ok(value) => read_tree(alloc, &value),
        Err(fault) => Err(of_json(fault)),
    }
}
