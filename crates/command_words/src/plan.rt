//! What `play` is asked for.
ghost use Rattle.std.specs.{Prelude.{◌≡◌, ◌<◌, ◌↔◌, string_bytes, All, Contains, IsTrue, IsSome, IfOk}, List.AllZip};
ghost use Rattle.line_text.specs.Names.{Spells};
ghost use Rattle.command_words.specs.{Commands.IsSaid, Plans.{AreMachines, AreScripts, IsListOf, transcript_of}, Texts.{Finds, shown, shown_if, items_if}, declared.command.Command.TheVariants.Play};

use crate::NoMemory;
use crate::given::Given;
use crate::numbers::count_or;
use crate::texts::{all_named, are_apart, has_text, is_named, pieces_of};
use line_text::{Name, NameError, read_name};
use std::alloc::{AllocError, Global};
use std::marker::Model;

// The most machines, scripts, and workers of one kind.
const MACHINES: usize = 16;

const SCRIPTS: usize = 8;

const WORKERS: u8 = 8;

/// What `play` is asked for: the names of machines to add, the name of the store, how many workers of each kind, the word of
/// the test, and the names of the scripts.
#[derive(Drop)]
pub struct PlayPlan<'a> {
    machines: Vec<Name>,
    store: Option<&'a str>,
    recompute: u8,
    bisect: u8,
    test: Option<&'a str>,
    scripts: Vec<&'a str>,
}

impl<'a> Model for PlayPlan<'a> {
    ghost use Rattle.command_words.specs.{Plans.Plan, Texts.{shown, shown_if}};

    ghost Value = { Plan };

    ghost view = { λ s. record {
      machines = s.machines.items;
      store = shown_if s.store;
      recompute = s.recompute;
      bisect = s.bisect;
      test = shown_if s.test;
      scripts = shown s.scripts.items;
    } };
}

impl<'a> PlayPlan<'a> {
    /// The names of the machines to add.
    pub fn machines(&self) -> &[Name]
        ensures { result.now ≡ self.now.machines }
    {
        &self.machines
    }

    /// The name of the store, if one is named.
    pub fn store(&self) -> Option<&'a str>
        ensures { shown_if result ≡ self.now.store }
    {
        self.store
    }

    /// How many recompute workers run.
    pub fn recompute(&self) -> u8
        ensures { result ≡ self.now.recompute }
    {
        self.recompute
    }

    /// How many bisect workers run.
    pub fn bisect(&self) -> u8
        ensures { result ≡ self.now.bisect }
    {
        self.bisect
    }

    /// The word of the test, if there is one.
    pub fn test(&self) -> Option<&'a str>
        ensures { shown_if result ≡ self.now.test }
    {
        self.test
    }

    /// The names of the scripts.
    pub fn scripts(&self) -> &[&'a str]
        ensures { shown result.now ≡ self.now.scripts }
    {
        &self.scripts
    }
}

/// The name of a script's transcript. Linear in the length.
pub fn transcript_name(alloc: Global, script: &str) -> Result<String, NoMemory>
    ensures { IfOk result (λ name. string_bytes name ≡ transcript_of script.now) }
{
    let mut name = String::from_str(alloc, script)?;
    name.push_str(".out")?;
    Ok(name)
}

// What the arguments of `play` ask for.
pub(crate) fn plan_said<'a>(
    alloc: Global,
    given: &Given<'a>,
) -> Result<Option<PlayPlan<'a>>, NoMemory>
    ensures { IfOk result (Finds (λ plan. IsSaid given.now (Play plan))) }
{
    let Some(machines) = machines_of(alloc, given.value("machines"))? else {
        return Ok(None);
    };
    let Some(recompute) = count_or(0, given.value("recompute"), 0, WORKERS) else {
        return Ok(None);
    };
    let Some(bisect) = count_or(0, given.value("bisect"), 0, WORKERS) else {
        return Ok(None);
    };
    let store = given.value("store");
    let test = given.value("test");
    if !is_named(store) {
        return Ok(None);
    }
    if !is_named(test) {
        return Ok(None);
    }
    if !is_tested(bisect, test) {
        return Ok(None);
    }
    let scripts = given.values(alloc, "SCRIPT")?;
    if !are_scripts(alloc, &scripts)? {
        return Ok(None);
    }
    Ok(Some(PlayPlan {
        machines,
        store,
        recompute,
        bisect,
        test,
        scripts,
    }))
}

// Whether there is a word of the test, where bisect workers run.
fn is_tested(bisect: u8, test: Option<&str>) -> bool
    ensures { IsTrue result ↔ (0 < bisect → IsSome (shown_if test.entry)) }
{
    match test {
        Some(_) => true,
        None => bisect == 0,
    }
}

// The machines that the list names; none without a list.
fn machines_of(alloc: Global, list: Option<&str>) -> Result<Option<Vec<Name>>, NoMemory>
    ensures { IfOk result (λ told. Finds
        (λ names. IsListOf (shown_if list.entry) names × AreMachines names) (items_if told)) }
{
    let Some(list) = list else {
        return Ok(Some(Vec::new(alloc)));
    };
    let pieces = pieces_of(alloc, list)?;
    if pieces.len() > MACHINES {
        return Ok(None);
    }
    let Some(names) = names_in(alloc, &pieces)? else {
        return Ok(None);
    };
    if !are_apart(&texts_in(alloc, &names)?) {
        return Ok(None);
    }
    Ok(Some(names))
}

// The names that the pieces spell, if each spells one.
fn names_in(alloc: Global, pieces: &[&str]) -> Result<Option<Vec<Name>>, NoMemory>
    ensures { IfOk result (λ told.
        Finds (AllZip Spells (shown pieces.now)) (items_if told)) }
{
    let mut names = Vec::with_capacity(alloc, pieces.len())?;
    for piece in pieces {
        match read_name(alloc, piece.as_bytes()) {
            Ok(name) => names.push(name)?,
            Err(NameError::BadName) => return Ok(None),
            Err(NameError::NoMemory) => return Err(AllocError),
        }
    }
    Ok(Some(names))
}

// The texts of the names.
fn texts_in<'a>(alloc: Global, names: &'a [Name]) -> Result<Vec<&'a str>, NoMemory>
    ensures { IfOk result (λ texts. shown texts.items ≡ names.entry.now) }
{
    let mut texts = Vec::with_capacity(alloc, names.len())?;
    for name in names {
        texts.push(name.as_str())?;
    }
    Ok(texts)
}

// Whether they are names of scripts that can run at once.
pub(crate) fn are_scripts(alloc: Global, scripts: &[&str]) -> Result<bool, NoMemory>
    ensures { IfOk result (λ yes. IsTrue yes ↔ AreScripts (shown scripts.now)) }
{
    if scripts.is_empty() || scripts.len() > SCRIPTS {
        return Ok(false);
    }
    if !all_named(scripts) || !are_apart(scripts) {
        return Ok(false);
    }
    are_own(alloc, scripts, scripts)
}

// Whether the transcript of none of them is a script.
fn are_own<'a>(alloc: Global, scripts: &[&'a str], among: &[&'a str]) -> Result<bool, NoMemory>
    ensures { IfOk result (λ yes. IsTrue yes ↔ All (λ script.
        ¬ Contains (shown among.now) (transcript_of script)) (shown scripts.now)) }
{
    let Some((first, rest)) = scripts.split_first() else {
        return Ok(true);
    };
    if has_text(among, &transcript_name(alloc, first)?) {
        return Ok(false);
    }
    are_own(alloc, rest, among)
}
