//! The audit.
ghost use Rattle.std.specs.Prelude.{◌≡◌, ◌+◌, ◌<◌, ◌≤◌, ◌^◌, ℕ, All, Err, IfOk, OnOk, length, sum_by};
ghost use Rattle.audit_model.specs.{Verdicts.{IsCutOff, IsVerdict, NoneCutOff}, declared.heard.Heard.Heard as AHeard};
ghost use Rattle.audit_model.specs.declared.verdict.AuditStop.TheVariants as stop;
ghost use Rattle.track_model.specs.Tracks.{Track};
ghost use Rattle.play_audit.specs.{Known.{AreSound, lines_in, tracks_of}, Audits.{Audits, MayBeAudited}, Heard.{AskThese, IsVerdictBy}};

use crate::NoMemory;
use crate::hearing::{Told, hear};
use crate::items::{Item, ItemsFault, items_of};
use crate::marks::{count_of, first_unasked, no_marks};
use audit_model::{AuditStop, Heard, Verdict};
use journal_reader::{Journal, Refused, read_journals};
use journal_walk::ByWalk;
use request_reader::reading_law;
use std::alloc::Global;

/// The verdict on the text of journals and scripts with their transcripts, 1 to 8: that they fit together, or the first line
/// or request that doesn't fit. No verdict comes where a script is cut off; the first such is named.
///
/// Goes once along the journals to read them, and for each script once along those of the machines that it names; keeps what
/// the scripts ask. Where a segmentation is said to have passed the limit on cuts, goes along its journal once more.
pub fn audit(alloc: Global, journal: &[u8], heard: &[Heard]) -> Result<Verdict, AuditStop>
    requires some { 0 < length heard.now }
    requires few { length heard.now ≤ 8 }
    requires short { All (λ (h : AHeard). length h.script ≤ 2 ^ 30) heard.now }
    ensures verdict { IfOk result (IsVerdict journal.now heard.now) }
    ensures whole { OnOk result (NoneCutOff heard.now) }
    ensures cut_off { (script offset : ℕ) → result ≡ Err (stop.CutOff script offset)
        → IsCutOff heard.now script offset }
{
    audit_by(alloc, journal, heard, false)
}

/// The same, slowly: for each request it goes along the journal again, from its first entry. It is the plain reference that
/// `audit` is compared with.
///
/// Takes O(requests · entries) steps along the journals, each publication's segmentation made anew as often.
pub fn plain_audit(alloc: Global, journal: &[u8], heard: &[Heard]) -> Result<Verdict, AuditStop>
    requires { MayBeAudited heard.now }
    ensures { Audits journal.now heard.now result }
{
    audit_by(alloc, journal, heard, true)
}

// The verdict, by one walk along a journal for each script, or by one anew for each request.
fn audit_by(
    alloc: Global,
    journal: &[u8],
    heard: &[Heard],
    anew: bool,
) -> Result<Verdict, AuditStop>
    requires { MayBeAudited heard.now }
    ensures verdict { IfOk result (IsVerdict journal.now heard.now) }
    ensures whole { OnOk result (NoneCutOff heard.now) }
    ensures cut_off { (script offset : ℕ) → result ≡ Err (stop.CutOff script offset)
        → IsCutOff heard.now script offset }
{
    let asked = read_scripts(alloc, heard)?;
    let journals = match read_journals(alloc, &ByWalk, heard.len() as u8, journal) {
        Ok(journals) => journals,
        Err(Refused::Line(line)) => return Ok(Verdict::JournalLine(line)),
        Err(Refused::NoMemory) => return Err(AuditStop::NoMemory),
    };
    Ok(hear_all(alloc, &journals, heard, asked, anew)?)
}

// What each script asks; else the first that is cut off.
fn read_scripts(alloc: Global, heard: &[Heard]) -> Result<Vec<Vec<Item>>, AuditStop>
    requires few { length heard.now ≤ 8 }
    requires short { All (λ (h : AHeard). length h.script ≤ 2 ^ 30) heard.now }
    ensures read { IfOk result (λ asked. AskThese heard.now asked.items) }
    ensures whole { OnOk result (NoneCutOff heard.now) }
    ensures cut { (script offset : ℕ) → result ≡ Err (stop.CutOff script offset)
        → IsCutOff heard.now script offset }
{
    reading_law();
    let mut asked = Vec::new(alloc);
    let mut script = 0;
    for one in heard {
        script += 1;
        match items_of(alloc, one.script.as_slice()) {
            Ok(items) => {
                if asked.push(items).is_err() {
                    return Err(AuditStop::NoMemory);
                }
            }
            Err(ItemsFault::CutOff(offset)) => return Err(AuditStop::CutOff { script, offset }),
            Err(ItemsFault::NoMemory) => return Err(AuditStop::NoMemory),
        }
    }
    Ok(asked)
}

// The verdict on scripts, which ask this, and their transcripts, by the journals.
fn hear_all(
    alloc: Global,
    journals: &[Journal],
    heard: &[Heard],
    asked: Vec<Vec<Item>>,
    anew: bool,
) -> Result<Verdict, NoMemory>
    requires sound { AreSound journals.now }
    requires fits { lines_in (tracks_of journals.now) + 1 < 2 ^ 64 }
    requires asked { AskThese heard.now asked.items }
    requires few { length heard.now ≤ 8 }
    ensures { IfOk result (IsVerdictBy journals.now heard.now) }
{
    reading_law();
    let mut marks = no_marks(alloc, journals)?;
    let mut script: u8 = 0;
    let mut requests = 0;
    let mut rest = asked.into_iter();
    for one in heard {
        let Some(items) = rest.next() else {
            unreachable!()
        };
        script += 1;
        let count = items.len() as u64;
        let transcript = one.transcript.as_slice();
        match hear(alloc, journals, script, items, transcript, anew, &mut marks)? {
            Told::All => requests += count,
            Told::Not(request) => {
                return Ok(Verdict::Request {
                    script: u64::from(script),
                    request,
                });
            }
        }
    }
    match first_unasked(journals, &marks) {
        Some(line) => Ok(Verdict::JournalLine(line)),
        None => Ok(Verdict::Shown {
            machines: journals.len() as u64,
            steps: steps_in(journals),
            requests,
        }),
    }
}

// How many entries the journals have together.
fn steps_in(journals: &[Journal]) -> u64
    requires { lines_in (tracks_of journals.now) + 1 < 2 ^ 64 }
    ensures { result ≡ sum_by (λ (t : Track). length t.history) (tracks_of journals.now) }
{
    let mut steps = 0;
    for journal in journals {
        steps += count_of(journal) as u64;
    }
    steps
}
