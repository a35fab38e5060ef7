//! Opening scripts and creating their transcripts.
ghost use Rattle.std.specs.{Prelude.{◌≡◌, ◌<◌, [], ◌∷◌, ◌++◌, vec_len, vec_capacity, IfOk, IfErr, OnOk, OnErr, Ok, Err, All, Contains}, List.AllZip};
ghost use Rattle.command_words.specs.{Plans.transcript_of, Texts.shown};
ghost use Rattle.script_files.specs.{Closing.AreClosable, Opening.{Asks, AreOpen, IsOpen, OpensMore, with_transcripts}};

use crate::close::close_scripts;
use command_words::transcript_name;
use std::alloc::Global;
use track_outside::{Files, OutError};

/// Why the scripts and their transcripts aren't all open.
#[derive(Clone, Copy, Debug, PartialEq, Eq)]
pub enum OpenFault {
    /// A script can't be opened.
    ReadFault,
    /// A transcript can't be created.
    WriteFault,
    /// There was no memory.
    NoMemory,
}

/// A script that is open, and its transcript.
#[derive(Drop)]
pub struct OpenScript<I, O> {
    pub input: I,
    pub output: O,
}

// Opens a script and creates its transcript, in the room for one more.
fn open_script<F: Files>(
    alloc: Global,
    files: &mut F,
    script: &str,
) -> Result<OpenScript<F::Input, F::Output>, OpenFault>
    ensures ok { IfOk result (λ s. AreOpen F.Input.Source F.Output.Sink (F.contents files.old)
        (script.now ∷ []) (s ∷ [])) }
    ensures names { OnOk result (F.contents files.new
        ≡ with_transcripts (script.now ∷ []) (F.contents files.old)) }
    ensures kept { OnErr result (F.contents files.new ≡ F.contents files.old) }
    ensures asks { OnOk result (Asks F.Files (script.now ∷ []) files.old files.new (Ok tt)) }
    ensures fault { IfErr result (λ fault.
        Asks F.Files (script.now ∷ []) files.old files.new (Err fault)) }
{
    let Ok(name) = transcript_name(alloc, script) else {
        return Err(OpenFault::NoMemory);
    };
    let input = match files.open_input(alloc, script) {
        Ok(input) => input,
        Err(OutError::Failed) => return Err(OpenFault::ReadFault),
        Err(OutError::NoMemory) => return Err(OpenFault::NoMemory),
    };
    match files.create_output(alloc, &name) {
        Ok(output) => Ok(OpenScript { input, output }),
        Err(OutError::Failed) => {
            files.close_input(input);
            Err(OpenFault::WriteFault)
        }
        Err(OutError::NoMemory) => {
            files.close_input(input);
            Err(OpenFault::NoMemory)
        }
    }
}

/// Opens each script and creates its transcript, in order, up to the first call that fails; what was opened is closed then.
/// No script may be another's transcript. Linear in the names.
pub fn open_scripts<F: Files>(
    alloc: Global,
    files: &mut F,
    scripts: &[&str],
) -> Result<Vec<OpenScript<F::Input, F::Output>>, OpenFault>
    requires own { All (λ script. ¬ Contains (shown scripts.now) (transcript_of script))
        (shown scripts.now) }
    ensures open { IfOk result (λ opened. AllZip (IsOpen F.Input.Source F.Output.Sink
        (F.contents files.old)) (shown scripts.now) opened.items) }
    ensures closable { IfOk result (λ opened.
        AreClosable F.Output.Sink (F.contents files.new) opened.items) }
    ensures names { OnOk result (F.contents files.new
        ≡ with_transcripts (shown scripts.now) (F.contents files.old)) }
    ensures asks { OnOk result (Asks F.Files (shown scripts.now) files.old files.new (Ok tt)) }
    ensures fault { IfErr result (λ fault.
        Asks F.Files (shown scripts.now) files.old files.new (Err fault)) }
{
    let mut opened = Vec::new(alloc);
    match open_rest(alloc, files, scripts, &mut opened) {
        Ok(()) => Ok(opened),
        Err(fault) => {
            close_scripts(files, opened);
            Err(fault)
        }
    }
}

// Opens scripts behind those that are open.
fn open_rest<F: Files>(
    alloc: Global,
    files: &mut F,
    scripts: &[&str],
    opened: &mut Vec<OpenScript<F::Input, F::Output>>,
) -> Result<(), OpenFault>
    requires closable { AreClosable F.Output.Sink (F.contents files.old) opened.old.items }
    ensures closable { AreClosable F.Output.Sink (F.contents files.new) opened.new.items }
    ensures open { OnOk result (OpensMore F.Input.Source F.Output.Sink (F.contents files.old)
        (shown scripts.now) opened.old.items opened.new.items) }
    ensures names { OnOk result (F.contents files.new
        ≡ with_transcripts (shown scripts.now) (F.contents files.old)) }
    ensures asks { OnOk result (Asks F.Files (shown scripts.now) files.old files.new (Ok tt)) }
    ensures fault { IfErr result (λ fault.
        Asks F.Files (shown scripts.now) files.old files.new (Err fault)) }
{
    let Some((script, rest)) = scripts.split_first() else {
        return Ok(());
    };
    if opened.reserve(1).is_err() {
        return Err(OpenFault::NoMemory);
    }
    let one = match open_script(alloc, files, script) {
        Ok(one) => one,
        Err(fault) => return Err(fault),
    };
    push_within(opened, one);
    open_rest(alloc, files, rest, opened)
}

// Pushes where there is room.
fn push_within<T: Drop>(items: &mut Vec<T>, item: T)
    requires { vec_len items.old < vec_capacity items.old }
    ensures { items.new.items ≡ items.old.items ++ item ∷ [] }
{
    if items.push(item).is_err() {
        unreachable!();
    }
}
