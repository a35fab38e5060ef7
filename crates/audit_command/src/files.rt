//! Opening and closing the files of an audit.
ghost use Rattle.std.specs.Prelude.{◌≡◌, ◌<◌, ◌++◌, [], ◌∷◌, vec_len, vec_capacity, IfOk, IfErr, OnOk, Ok, Err};
ghost use Rattle.command_words.specs.Texts.{shown, texts};
ghost use Rattle.audit_command.specs.Opening.{Asks, IsKept, IsOpen, OpensMore, files_of, names_of};

use crate::end::FileStop;
use command_words::transcript_name;
use line_text::NoMemory;
use std::alloc::Global;
use std::vec::IntoIter;
use track_outside::{Files, OutError};

// The names of the files, in the order in which they are opened.
pub(crate) fn names_for(
    alloc: Global,
    journal: &str,
    scripts: &[&str],
) -> Result<Vec<String>, NoMemory>
    ensures { IfOk result (λ names.
        texts names.items ≡ names_of journal.now (shown scripts.now)) }
{
    let mut names = Vec::new(alloc);
    names.push(String::from_str(alloc, journal)?)?;
    put_names(alloc, &mut names, scripts)?;
    Ok(names)
}

// Puts the names of the scripts and of their transcripts behind others.
fn put_names(alloc: Global, names: &mut Vec<String>, scripts: &[&str]) -> Result<(), NoMemory>
    ensures { OnOk result (texts names.new.items
        ≡ texts names.old.items ++ files_of (shown scripts.now)) }
{
    let Some((script, rest)) = scripts.split_first() else {
        return Ok(());
    };
    names.push(String::from_str(alloc, script)?)?;
    names.push(transcript_name(alloc, script)?)?;
    put_names(alloc, names, rest)
}

// Opens files of these names, in order, up to the first that can't be opened.
pub(crate) fn open_all<F: Files>(
    alloc: Global,
    files: &mut F,
    names: &[String],
    inputs: &mut Vec<F::Input>,
) -> Result<(), FileStop>
    ensures open { OnOk result (OpensMore F.Input.Source (F.contents files.old)
        (texts names.now) inputs.old.items inputs.new.items) }
    ensures asks { OnOk result (Asks F.Files (texts names.now) files.old files.new (Ok tt)) }
    ensures stop { IfErr result (λ stop.
        Asks F.Files (texts names.now) files.old files.new (Err stop)) }
    ensures kept { IsKept F.Files files.old files.new }
{
    let Some((name, rest)) = names.split_first() else {
        return Ok(());
    };
    if inputs.reserve(1).is_err() {
        return Err(FileStop::NoMemory);
    }
    let input = match open_one(alloc, files, name.as_str()) {
        Ok(input) => input,
        Err(stop) => return Err(stop),
    };
    push_within(inputs, input);
    open_all(alloc, files, rest, inputs)
}

// Opens the file of this name.
fn open_one<F: Files>(alloc: Global, files: &mut F, name: &str) -> Result<F::Input, FileStop>
    ensures open { IfOk result (IsOpen F.Input.Source (F.contents files.old) name.now) }
    ensures asks { OnOk result (Asks F.Files (name.now ∷ []) files.old files.new (Ok tt)) }
    ensures stop { IfErr result (λ stop.
        Asks F.Files (name.now ∷ []) files.old files.new (Err stop)) }
    ensures kept { IsKept F.Files files.old files.new }
{
    match files.open_input(alloc, name) {
        Ok(input) => Ok(input),
        Err(OutError::Failed) => Err(FileStop::ReadFault),
        Err(OutError::NoMemory) => Err(FileStop::NoMemory),
    }
}

// Pushes where there is room.
fn push_within<T: Drop>(items: &mut Vec<T>, item: T)
    requires { vec_len items.old < vec_capacity items.old }
    ensures { items.new.items ≡ items.old.items ++ item ∷ [] }
{
    if items.push(item).is_err() {
        unreachable!();
    }
}

// Closes those that are open.
pub(crate) fn close_all<F: Files>(files: &mut F, mut inputs: IntoIter<F::Input>)
    ensures kept { IsKept F.Files files.old files.new }
    ensures noted { F.asked files.new ≡ F.asked files.old }
{
    let Some(input) = inputs.next() else {
        return;
    };
    files.close_input(input);
    close_all(files, inputs);
}
