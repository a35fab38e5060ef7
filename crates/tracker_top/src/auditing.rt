//! `audit`: whether the files of a shared run fit together.
ghost use Rattle.std.specs.Prelude.{◌≡◌, ◌≢◌, ◌⊎◌, IfOk, IfSome, IfNone};
ghost use Rattle.command_words.specs.{declared.command.Command.TheVariants.Audit, Commands.{AreNoCommand, IsSpelled}, Plans.Files as Named, Texts.texts};
ghost use Rattle.tracker_top.specs.{declared.status.Status.Status, Audits.{AreFilesIn, AuditsAsDue, EndsAudit, IsToldOf}, Statuses.AsksAudit};

use crate::naming::put_audit_status;
use crate::printing::put_status;
use crate::status::Status;
use audit_command::{audit_files, one_verdict_law};
use command_words::{AuditPlan, Command, command_of, one_command_law};
use std::alloc::Global;
use track_outside::{Files, NoMemory};

/// Tells whether the files of a shared run fit together, from the files alone, and answers how that ends.
///
/// `audit JOURNAL SCRIPT..` opens the file with the journals, and then each of 1 to 8 scripts and its transcript, which is
/// named as the script with `.out` behind; reads all of them; and replays the journals. Where they fit, how many machines,
/// entries and requests there are goes to `out`. Else the status names the first line or request that doesn't fit: the
/// journals' text, then the replies, then the entries. It trusts no other program: what the files don't show it doesn't say.
///
/// The status' line goes to `err`, with the file's name as written; where that fails the status stands. At most 2^30 bytes
/// are read of all files together. Linear in them, beside what `audit_command::audit_files` takes.
pub fn audit<F: Files>(
    alloc: Global,
    words: &[String],
    out: &mut F::Output,
    err: &mut F::Output,
    files: &mut F,
) -> Status
    requires first { AsksAudit (texts words.now) }

    // Bad words are no command, and then nothing is opened or written but the status' line.
    ensures bad_words { result ≡ Status.BadWords → AreNoCommand (texts words.now) }
    ensures untouched { result ≡ Status.BadWords
        → (files.new ≡ files.old) × (out.new ≡ out.old) }

    // Else memory was wanting to read them, or they are `audit` of some files, which ends so.
    ensures command { result ≢ Status.BadWords
        → ((result ≡ Status.NoMemory) × (files.new ≡ files.old) × (out.new ≡ out.old))
        ⊎ ((named : Named) × IsSpelled (texts words.now) (Audit named)
        × EndsAudit F.Files F.Output.Sink named files.old files.new out.old out.new result) }

    // What is due comes, unless memory is wanting, a file can't be opened or read, or the output fails. So good words and
    // files that fit together are Done, and a status tells another verdict exactly where files have it.
    ensures complete { AuditsAsDue F.Files F.Output.Sink (texts words.now)
        files.old files.new out.old out.new result }

    // The status is told, with the file's name as the words have it.
    ensures told { (named : Named) → AreFilesIn (texts words.now) named
        → IsToldOf F.Output.Sink named err.old err.new result }
{
    one_command_law();
    one_verdict_law();
    let Ok(told) = files_in(alloc, words) else {
        let _ = put_status(err, Status::NoMemory);
        return Status::NoMemory;
    };
    let Some(named) = told else {
        let _ = put_status(err, Status::BadWords);
        return Status::BadWords;
    };
    let journal = named.journal();
    let scripts = named.scripts();
    let status = Status::from(audit_files(alloc, files, out, journal, scripts));
    // A status stands also where it can't be told.
    let _ = put_audit_status(err, journal, scripts, status);
    status
}

// The files that the words are `audit` of, if they are a command.
fn files_in(alloc: Global, words: &[String]) -> Result<Option<AuditPlan<'_>>, NoMemory>
    requires { AsksAudit (texts words.now) }
    ensures some { IfOk result (λ told. IfSome told (λ named.
        IsSpelled (texts words.now) (Audit named))) }
    ensures none { IfOk result (λ told. IfNone told (AreNoCommand (texts words.now))) }
{
    let Some(command) = command_of(alloc, words)? else {
        return Ok(None);
    };
    match command {
        Command::Audit(named) => Ok(Some(named)),
        Command::Cut(_) => unreachable!(),
        Command::Apply(_) => unreachable!(),
        Command::Gen(_) => unreachable!(),
        Command::Trial(_) => unreachable!(),
        Command::Play(_) => unreachable!(),
        Command::Path(_) => unreachable!(),
        Command::Hunt(_) => unreachable!(),
    }
}
