//! What `audit` is asked for.
ghost use Rattle.std.specs.Prelude.{◌≡◌, ◌≢◌, ◌↔◌, All, IsTrue, IfOk};
ghost use Rattle.command_words.specs.{Commands.IsSaid, Plans.transcript_of, Texts.{Finds, shown}, declared.command.Command.TheVariants.Audit};

use crate::NoMemory;
use crate::given::Given;
use crate::plan::{are_scripts, transcript_name};
use crate::texts::{has_text, is_same};
use std::alloc::Global;
use std::marker::Model;

/// What `audit` is asked for: the name of the file with the journals, and the names of the scripts.
#[derive(Drop)]
pub struct AuditPlan<'a> {
    journal: &'a str,
    scripts: Vec<&'a str>,
}

impl<'a> Model for AuditPlan<'a> {
    ghost use Rattle.command_words.specs.{Plans.Files, Texts.shown};

    ghost Value = { Files };

    ghost view = { λ s. record { journal = s.journal.now; scripts = shown s.scripts.items } };
}

impl<'a> AuditPlan<'a> {
    /// The name of the file with the journals.
    pub fn journal(&self) -> &'a str
        ensures { result.now ≡ self.now.journal }
    {
        self.journal
    }

    /// The names of the scripts.
    pub fn scripts(&self) -> &[&'a str]
        ensures { shown result.now ≡ self.now.scripts }
    {
        &self.scripts
    }
}

// What the arguments of `audit` ask for.
pub(crate) fn audit_said<'a>(
    alloc: Global,
    given: &Given<'a>,
) -> Result<Option<AuditPlan<'a>>, NoMemory>
    ensures { IfOk result (Finds (λ audit. IsSaid given.now (Audit audit))) }
{
    let Some(journal) = given.value("JOURNAL") else {
        return Ok(None);
    };
    let scripts = given.values(alloc, "SCRIPT")?;
    if journal.is_empty() {
        return Ok(None);
    }
    if has_text(&scripts, journal) {
        return Ok(None);
    }
    if !are_scripts(alloc, &scripts)? {
        return Ok(None);
    }
    if !are_others(alloc, &scripts, journal)? {
        return Ok(None);
    }
    Ok(Some(AuditPlan { journal, scripts }))
}

// Whether none of their transcripts has this name.
fn are_others(alloc: Global, scripts: &[&str], name: &str) -> Result<bool, NoMemory>
    ensures { IfOk result (λ yes. IsTrue yes
        ↔ All (λ script. transcript_of script ≢ name.now) (shown scripts.now)) }
{
    let Some((first, rest)) = scripts.split_first() else {
        return Ok(true);
    };
    if is_same(&transcript_name(alloc, first)?, name) {
        return Ok(false);
    }
    are_others(alloc, rest, name)
}
