//! The lines that tell statuses of runs whose scripts or files have names.
ghost use Rattle.std.specs.Prelude.{◌≡◌, [], ◌∷◌, ◌++◌, codes, decimal, option_map, slice_get, OnOk, OnErr};
ghost use Rattle.audit_command.specs.Opening.{files_of, names_of};
ghost use Rattle.command_words.specs.Texts.{shown};
ghost use Rattle.track_outside.specs.Calls.{Took, FailedIn};
ghost use Rattle.tracker_top.specs.{Audits.audit_line, Plays.{line_in, long_line, script_name}};

use crate::printing::{put_numbered, put_status};
use crate::status::Status;
use audit_command::Verdict;
use track_outside::{Failed, Sink, put_all};

/// Writes the line that tells the status, with the name of the script of its number. Takes no memory. A failed write leaves a
/// first part of the line written.
pub fn put_play_status<O: Sink>(err: &mut O, names: &[&str], status: Status) -> Result<(), Failed>
    ensures ok { OnOk result (Took O.Sink err.old err.new (line_in (shown names.now) status)) }
    ensures err { OnErr result (FailedIn O.Sink err.old err.new
        (line_in (shown names.now) status)) }
{
    match status {
        Status::CutOff(number, offset) => match name_of(names, number) {
            Some(name) => put_place(err, b"cut off: ", name, b" at ", offset),
            None => put_status(err, status),
        },
        Status::InputTooLong(number) => match name_of(names, number) {
            Some(name) => put_too_long(err, name, b"\n"),
            None => put_status(err, status),
        },
        _ => put_status(err, status),
    }
}

/// Writes the line that tells the status of an audit, with the name of its file. Takes no memory. A failed write leaves a
/// first part of the line written.
pub fn put_audit_status<O: Sink>(
    err: &mut O,
    journal: &str,
    scripts: &[&str],
    status: Status,
) -> Result<(), Failed>
    ensures ok { OnOk result (Took O.Sink err.old err.new (audit_line
        (record { journal = journal.now; scripts = shown scripts.now }) status)) }
    ensures err { OnErr result (FailedIn O.Sink err.old err.new (audit_line
        (record { journal = journal.now; scripts = shown scripts.now }) status)) }
{
    match status {
        Status::Differs(Verdict::JournalLine(line)) => put_place(
            err,
            b"differs: ",
            journal,
            b" line ",
            line,
        ),
        Status::Differs(Verdict::Request { script, request }) => match name_of(scripts, script) {
            Some(name) => put_place(err, b"differs: ", name, b" request ", request),
            None => put_status(err, status),
        },
        Status::CutOff(number, offset) => match name_of(scripts, number) {
            Some(name) => put_place(err, b"cut off: ", name, b" at ", offset),
            None => put_status(err, status),
        },
        Status::InputTooLong(place) => put_file_too_long(err, journal, scripts, place),
        _ => put_status(err, status),
    }
}

// The name of the script of a number, from 1.
fn name_of<'a>(names: &[&'a str], number: u64) -> Option<&'a str>
    ensures { option_map (λ name. name.now) result ≡ script_name (shown names.now) number }
{
    if number == 0 {
        return None;
    }
    names.get((number - 1) as usize).copied()
}

// Writes that a file is too long: its name, and what ends the name and the line.
fn put_too_long<O: Sink>(err: &mut O, name: &str, rest: &[u8]) -> Result<(), Failed>
    ensures ok { OnOk result (Took O.Sink err.old err.new
        (codes "input too long: " ++ (name.now ++ rest.now))) }
    ensures err { OnErr result (FailedIn O.Sink err.old err.new
        (codes "input too long: " ++ (name.now ++ rest.now))) }
{
    put_all(err, b"input too long: ")?;
    put_all(err, name.as_bytes())?;
    put_all(err, rest)
}

// Writes that a file of this name differs or is cut off, and where: behind the word, the number there.
fn put_place<O: Sink>(
    err: &mut O,
    what: &[u8],
    name: &str,
    word: &[u8],
    number: u64,
) -> Result<(), Failed>
    ensures ok { OnOk result (Took O.Sink err.old err.new
        (what.now ++ (name.now ++ (word.now ++ decimal number ++ 10 ∷ [])))) }
    ensures err { OnErr result (FailedIn O.Sink err.old err.new
        (what.now ++ (name.now ++ (word.now ++ decimal number ++ 10 ∷ [])))) }
{
    put_all(err, what)?;
    put_all(err, name.as_bytes())?;
    put_numbered(err, word, number)
}

// Writes that the file at a place, from 1, is too long: the journals, then each script and its transcript.
fn put_file_too_long<O: Sink>(
    err: &mut O,
    journal: &str,
    scripts: &[&str],
    place: u64,
) -> Result<(), Failed>
    ensures ok { OnOk result (Took O.Sink err.old err.new
        (long_line (script_name (names_of journal.now (shown scripts.now)) place))) }
    ensures err { OnErr result (FailedIn O.Sink err.old err.new
        (long_line (script_name (names_of journal.now (shown scripts.now)) place))) }
{
    if place == 0 {
        return put_status(err, Status::InputTooLong(0));
    }
    if place == 1 {
        return put_too_long(err, journal, b"\n");
    }
    put_script_too_long(err, scripts, place - 2)
}

// Writes that the file at a place among the scripts and their transcripts, from 0, is too long.
fn put_script_too_long<O: Sink>(err: &mut O, scripts: &[&str], place: u64) -> Result<(), Failed>
    ensures ok { OnOk result (Took O.Sink err.old err.new
        (long_line (slice_get (files_of (shown scripts.now)) place))) }
    ensures err { OnErr result (FailedIn O.Sink err.old err.new
        (long_line (slice_get (files_of (shown scripts.now)) place))) }
{
    let Some((script, rest)) = scripts.split_first() else {
        return put_status(err, Status::InputTooLong(0));
    };
    if place == 0 {
        return put_too_long(err, script, b"\n");
    }
    if place == 1 {
        return put_too_long(err, script, b".out\n");
    }
    put_script_too_long(err, rest, place - 2)
}
