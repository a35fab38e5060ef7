//! A script, heard with its transcript.
ghost use Rattle.std.specs.{Prelude.{◌≡◌, ◌≢◌, ℕ, true, false, [], filter, length, slice_get, IfOk, IfSome, IfNone, Ok, Some, if◌then◌else◌}, List.AllByRecursion};
ghost use Rattle.journal_reader.specs.Journals.{IsOther, Journal as Read};
ghost use Rattle.play_model.specs.Replies.{stands_alone};
ghost use Rattle.audit_model.specs.Heard.{is_of_store};
ghost use Rattle.play_audit.specs.declared.hearing.Told.TheVariants as told;
ghost use Rattle.play_audit.specs.{Known.{AreKnown, AreSound, tracks_of}, Marks.{AreRows, rows_of}, Heard.{CanHear, Hears, HearsAll, RefusesAt}};

use crate::NoMemory;
use crate::items::Item;
use crate::place::Place;
use crate::text::{apart, begins_with};
use history_model::{Author, Placed};
use journal_reader::Journal;
use line_text::Name;
use request_model::{Refusal, Request};
use std::alloc::Global;

// What came of a script's transcript.
#[derive(Clone, Copy, Debug, PartialEq, Eq)]
pub(crate) enum Told {
    // It has the replies to all its requests, and nothing else.
    All,
    // This request, from 1, is the first whose reply doesn't fit, or one past the last.
    Not(u64),
}

// What came of the transcript of the script of a number, which asks these items. Goes once along the journal of each
// machine that it names, or anew for each request.
pub(crate) fn hear(
    alloc: Global,
    journals: &[Journal],
    script: u8,
    items: Vec<Item>,
    transcript: &[u8],
    anew: bool,
    marks: &mut Vec<Vec<bool>>,
) -> Result<Told, NoMemory>
    requires sound { AreSound journals.now }
    requires rows { AreRows (tracks_of journals.now) (rows_of marks.old.items) }
    ensures all { result ≡ Ok told.All → HearsAll journals.now script items.items
        transcript.now (rows_of marks.old.items) (rows_of marks.new.items) }
    ensures refused { (request : ℕ) → result ≡ Ok (told.Not request)
        → RefusesAt journals.now script items.items transcript.now request }
{
    let mut places = places_of(alloc, journals, anew)?;
    let mut at = 0;
    let mut request = 0;
    for item in items {
        request += 1;
        match hear_item(
            alloc,
            journals,
            &mut places,
            script,
            item,
            &transcript[at..],
            marks,
        )? {
            Some(len) => at += len,
            None => return Ok(Told::Not(request)),
        }
    }
    if at < transcript.len() {
        return Ok(Told::Not(request + 1));
    }
    Ok(Told::All)
}

// The beginnings of a script's ways along the journals. None walks yet.
fn places_of<'a>(
    alloc: Global,
    journals: &'a [Journal],
    anew: bool,
) -> Result<Vec<Place<'a>>, NoMemory>
    requires { AreSound journals.now }
    ensures { IfOk result (λ places. AreKnown journals.now [] places.items) }
{
    let mut places = Vec::new(alloc);
    for journal in journals {
        let known = kept_count(&journal.history);
        places.push(Place {
            walk: None,
            known,
            anew,
        })?;
    }
    Ok(places)
}

// How many entries of a history a store kept.
fn kept_count(history: &[Placed]) -> u64
    ensures { result ≡ length (filter is_of_store history.now) }
{
    let mut count = 0;
    for placed in history {
        count += one_if(is_kept(placed));
    }
    count
}

fn one_if(yes: bool) -> u64
    ensures { result ≡ (if yes then 1 else 0) }
{
    if yes { 1 } else { 0 }
}

fn is_kept(placed: &Placed) -> bool
    ensures { result ≡ is_of_store placed.now }
{
    matches!(placed.author, Author::Kept)
}

// How long the reply is to what comes next in a script, where a transcript begins with one that the journals give.
#[tactic(none)]
fn hear_item<'a>(
    alloc: Global,
    journals: &'a [Journal],
    places: &mut Vec<Place<'a>>,
    script: u8,
    item: Item,
    transcript: &[u8],
    marks: &mut Vec<Vec<bool>>,
) -> Result<Option<usize>, NoMemory>
    requires { CanHear journals.now places.old.items (rows_of marks.old.items) }
    ensures { Hears journals.now script item transcript.now result
        places.old.items places.new.items (rows_of marks.old.items) (rows_of marks.new.items) }
{
    match item {
        Ok(request) => {
            hear_request(alloc, journals, places, script, &request, transcript, marks)
        }
        Err(reason) => begins_with(alloc, transcript, apart(reason)),
    }
}

fn hear_request<'a>(
    alloc: Global,
    journals: &'a [Journal],
    places: &mut Vec<Place<'a>>,
    script: u8,
    request: &Request,
    transcript: &[u8],
    marks: &mut Vec<Vec<bool>>,
) -> Result<Option<usize>, NoMemory>
    requires { CanHear journals.now places.old.items (rows_of marks.old.items) }
    ensures { Hears journals.now script (Ok request.now) transcript.now result
        places.old.items places.new.items (rows_of marks.old.items) (rows_of marks.new.items) }
{
    if is_alone(request) {
        return begins_with(alloc, transcript, apart(Refusal::OnlyAlone));
    }
    let Some(i) = journal_of(journals, request.machine()) else {
        return begins_with(alloc, transcript, apart(Refusal::UnknownMachine));
    };
    let journal = &journals[i];
    let place = &mut places[i];
    let row = &mut marks[i];
    place.hear(alloc, script, &journal.history, request, transcript, row)
}

// Whether a request is of the form that is for scripts alone.
fn is_alone(request: &Request) -> bool
    ensures { result ≡ stands_alone request.now }
{
    matches!(request, Request::Machine { .. })
}

// The place of a machine's journal.
fn journal_of(journals: &[Journal], machine: &Name) -> Option<usize>
    ensures some { IfSome result (λ at. (j : Read) × (slice_get journals.now at ≡ Some j)
        × (j.machine ≡ machine.now)) }
    ensures none { IfNone result (AllByRecursion (IsOther machine.now) journals.now) }
{
    for (i, journal) in journals.iter().enumerate() {
        if are_same(&journal.machine, machine) {
            return Some(i);
        }
    }
    None
}

fn are_same(one: &Name, other: &Name) -> bool
    ensures yes { result ≡ true → one.now ≡ other.now }
    ensures no { result ≡ false → one.now ≢ other.now }
{
    one == other
}
