//! The command, from the names of files to its output.
ghost use Rattle.std.specs.Prelude.{◌≡◌, ◌<◌, ◌≤◌, ◌^◌, ◌∷◌, ℕ, List, All, length, IfOk, IfErr, OnOk};
ghost use Rattle.audit_model.specs.declared.heard.Heard.{Heard as AHeard};
ghost use Rattle.command_words.specs.Texts.{shown, texts};
ghost use Rattle.audit_command.specs.{Endings.{AreTexts, EndsAudit, EndsFiles, EndsVerdict, HaveAll, texts_of}, Opening.names_of, Text.shown_text};
ghost use Rattle.audit_command.specs.declared.end.AuditEnd.TheVariants as end;

use crate::end::{AuditEnd, FileStop};
use crate::files::{close_all, names_for, open_all};
use crate::reading::{in_pairs, read_all};
use crate::text::put_shown;
use audit_model::{AuditStop, Bytes, Heard, Verdict};
use line_text::NoMemory;
use play_audit::audit;
use std::alloc::{AllocError, Global};
use track_outside::{Files, Sink, put_all};

// The most bytes that are read of all files together.
const INPUT_LIMIT: usize = 0x4000_0000;

// What the files have: the journals, and the scripts with their transcripts.
#[derive(Drop)]
struct Read {
    journal: Bytes,
    heard: Vec<Heard>,
}

/// Audits the file with the journals and 1 to 8 scripts with their transcripts, which are named as the scripts with `.out`
/// behind, and writes that they fit together where they do; elsewhere nothing is written, and the end tells why.
///
/// Opens the journals, then each script and its transcript; then reads all of them in this order, and closes each. Linear
/// in the bytes, beside what `play_audit::audit` takes.
pub fn audit_files<F: Files>(
    alloc: Global,
    files: &mut F,
    out: &mut F::Output,
    journal: &str,
    scripts: &[&str],
) -> AuditEnd
    requires some { 0 < length scripts.now }
    requires few { length scripts.now ≤ 8 }
    ensures files { EndsFiles F.Files (names_of journal.now (shown scripts.now))
        files.old files.new result }
    ensures audit { EndsAudit F.Output.Sink (F.contents files.old) journal.now
        (shown scripts.now) out.old out.new result }
{
    match read_files(alloc, files, journal, scripts) {
        Ok(read) => tell(alloc, out, read.journal.as_slice(), &read.heard),
        Err(stop) => AuditEnd::Unread(stop),
    }
}

// What the files have.
fn read_files<F: Files>(
    alloc: Global,
    files: &mut F,
    journal: &str,
    scripts: &[&str],
) -> Result<Read, FileStop>
    ensures texts { IfOk result (λ read. AreTexts (F.contents files.old) journal.now
        (shown scripts.now) read.journal read.heard.items) }
    ensures ok { OnOk result (EndsFiles F.Files (names_of journal.now (shown scripts.now))
        files.old files.new end.Done) }
    ensures stop { IfErr result (λ stop. EndsFiles F.Files
        (names_of journal.now (shown scripts.now)) files.old files.new (end.Unread stop)) }
{
    let Ok(names) = names_for(alloc, journal, scripts) else {
        return Err(FileStop::NoMemory);
    };
    let found = match texts_at(alloc, files, &names) {
        Ok(found) => found,
        Err(stop) => return Err(stop),
    };
    match parted(alloc, found) {
        Ok(read) => Ok(read),
        Err(_) => Err(FileStop::NoMemory),
    }
}

// The texts of the files of these names.
fn texts_at<F: Files>(
    alloc: Global,
    files: &mut F,
    names: &[String],
) -> Result<Vec<Bytes>, FileStop>
    ensures have { IfOk result (λ found.
        HaveAll (F.contents files.old) (texts names.now) found.items) }
    ensures ok { OnOk result (EndsFiles F.Files (texts names.now)
        files.old files.new end.Done) }
    ensures stop { IfErr result (λ stop. EndsFiles F.Files (texts names.now)
        files.old files.new (end.Unread stop)) }
{
    let mut inputs = Vec::new(alloc);
    if let Err(stop) = open_all(alloc, files, names, &mut inputs) {
        close_all(files, inputs.into_iter());
        return Err(stop);
    }
    let mut found = Vec::new(alloc);
    match read_all(alloc, files, inputs.into_iter(), INPUT_LIMIT, &mut found) {
        Ok(()) => Ok(found),
        Err(stop) => Err(stop),
    }
}

// The texts as those of the journals and of the scripts with their transcripts.
fn parted(alloc: Global, found: Vec<Bytes>) -> Result<Read, NoMemory>
    ensures { (bytes : List ℕ) (whole : List AHeard) → found.items ≡ bytes ∷ texts_of whole
        → IfOk result (λ read. (read.journal ≡ bytes) × (read.heard.items ≡ whole)) }
{
    let mut rest = found.into_iter();
    let Some(journal) = rest.next() else {
        return Err(AllocError);
    };
    let mut heard = Vec::new(alloc);
    in_pairs(alloc, rest, &mut heard)?;
    Ok(Read { journal, heard })
}

// Audits what was read, and writes that it fits together.
fn tell<O: Sink>(alloc: Global, out: &mut O, journal: &[u8], heard: &[Heard]) -> AuditEnd
    requires some { 0 < length heard.now }
    requires few { length heard.now ≤ 8 }
    requires short { All (λ (h : AHeard). length h.script ≤ 2 ^ 30) heard.now }
    ensures { EndsVerdict O.Sink journal.now heard.now out.old out.new result }
{
    let verdict = match audit(alloc, journal, heard) {
        Ok(verdict) => verdict,
        Err(stop) => return AuditEnd::NoVerdict(stop),
    };
    match verdict {
        Verdict::Shown {
            machines,
            steps,
            requests,
        } => {
            let Ok(text) = text_of(alloc, machines, steps, requests) else {
                return AuditEnd::NoVerdict(AuditStop::NoMemory);
            };
            match put_all(out, &text) {
                Ok(()) => AuditEnd::Done,
                Err(_) => AuditEnd::WriteFault,
            }
        }
        Verdict::JournalLine(line) => AuditEnd::Differs(Verdict::JournalLine(line)),
        Verdict::Request { script, request } => {
            AuditEnd::Differs(Verdict::Request { script, request })
        }
    }
}

// The line of files that fit together.
fn text_of(alloc: Global, machines: u64, steps: u64, requests: u64) -> Result<Vec<u8>, NoMemory>
    ensures { IfOk result (λ text. text.items ≡ shown_text machines steps requests) }
{
    let mut text = Vec::new(alloc);
    put_shown(alloc, &mut text, machines, steps, requests)?;
    Ok(text)
}
