//! Closing scripts and their transcripts.
ghost use Rattle.std.specs.{Prelude.{[], ◌∷◌}, Vec.Iter.into_iter_items};
ghost use Rattle.script_files.specs.Closing.{AreApart, AreClosable, Closes, HaveWritten};

use crate::open::OpenScript;
use std::vec::IntoIter;
use track_outside::Files;

/// Closes the scripts and their transcripts, in order. Each name of a transcript must be there. Takes no memory.
pub fn close_scripts<F: Files>(files: &mut F, opened: Vec<OpenScript<F::Input, F::Output>>)
    requires { AreClosable F.Output.Sink (F.contents files.old) opened.items }
    ensures closes { Closes F.Files F.Input.Source F.Output.Sink opened.items
        files.old files.new }
    ensures each { AreApart F.Output.Sink opened.items
        → HaveWritten F.Output.Sink opened.items (F.contents files.new) }
{
    close_rest(files, opened.into_iter());
}

// Closes those that are left.
fn close_rest<F: Files>(files: &mut F, mut opened: IntoIter<OpenScript<F::Input, F::Output>>)
    requires { AreClosable F.Output.Sink (F.contents files.old) (into_iter_items opened) }
    ensures { Closes F.Files F.Input.Source F.Output.Sink (into_iter_items opened)
        files.old files.new }
{
    let Some(script) = opened.next() else {
        return;
    };
    close_script(files, script);
    close_rest(files, opened);
}

// Closes a script and its transcript.
fn close_script<F: Files>(files: &mut F, script: OpenScript<F::Input, F::Output>)
    requires { AreClosable F.Output.Sink (F.contents files.old) (script ∷ []) }
    ensures { Closes F.Files F.Input.Source F.Output.Sink (script ∷ []) files.old files.new }
{
    let OpenScript { input, output } = script;
    files.close_input(input);
    files.close_output(output);
}
