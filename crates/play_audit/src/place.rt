//! A script's way along the journal of a machine.
ghost use Rattle.std.specs.Prelude.{◌≡◌, ◌≤◌, ◌<◌, ◌+◌, ◌-◌, ◌^◌, ◌↔◌, ◌⊎◌, ◌||◌, set, Some, false, true, length, IfOk, IfSome, IfNone, IsTrue, OnOk};
ghost use Rattle.history_model.specs.declared.entries.Author.TheVariants as made_by;
ghost use Rattle.play_model.specs.Replies.{Adds, Tells, stands_alone};
ghost use Rattle.request_model.specs.Requests.{machine_of};
ghost use Rattle.journal_walk.specs.Walks.{GoesOn, coming};
ghost use Rattle.reply_laws.specs.Kinds.{Names, asks_only, tells_by_letter};
ghost use Rattle.track_entry.specs.Texts.{IsEntry};
ghost use Rattle.play_audit.specs.{Places.{IsBehind, IsBy, IsPlace, IsSound, Knows, MayAsk, Walks}, Replies.{IsCompared, IsHeardNext, IsUnheard}};

use crate::NoMemory;
use crate::behind::{added_behind, told_behind};
use crate::segment::{published_behind, unpublished};
use crate::text::{Named, first_named, is_only_asked, tells_none};
use history_model::{Author, Placed};
use journal_walk::{Walk, along_law};
use line_text::{Duplicate, Name};
use play_model::replies_law;
use reply_laws::{kinds_law, texts_law};
use request_model::Request;
use std::alloc::Global;

// A script's way along the journal of a machine: what its last reply about it knew.
#[derive(Drop)]
pub(crate) struct Place<'a> {
    // There is none before the script first names the machine.
    pub(crate) walk: Option<Walk<'a>>,
    // So many entries were known.
    pub(crate) known: u64,
    // Whether each request has a walk of its own, which begins before the first entry.
    pub(crate) anew: bool,
}

impl<'a> Place<'a> {
    // Begins the walk along the history of a machine, where it didn't begin yet, or begins anew for each request.
    fn begin(
        &mut self,
        alloc: Global,
        machine: &Name,
        history: &'a [Placed],
    ) -> Result<(), NoMemory>
        requires place { IsPlace machine.now history.now self.old }
        ensures walks { OnOk result (Walks machine.now history.now self.new) }
        ensures known { self.new.known ≡ self.old.known }
    {
        along_law();
        if self.walk.is_some() && !self.anew {
            return Ok(());
        }
        let walk = Walk::new(alloc, machine.copy(alloc)?, history)?;
        self.walk = Some(walk);
        Ok(())
    }

    // How long the reply to a request of the script of a number is that a transcript begins with, where the journal gives it;
    // the entry that it added, if it added one, is marked. None exactly where it begins with no such reply.
    pub(crate) fn hear(
        &mut self,
        alloc: Global,
        script: u8,
        history: &'a [Placed],
        request: &Request,
        transcript: &[u8],
        marks: &mut Vec<bool>,
    ) -> Result<Option<usize>, NoMemory>
        requires place { IsPlace (machine_of request.now) history.now self.old }
        requires shared { stands_alone request.now ≡ false }
        requires sound { IsSound history.now }
        requires marks { length marks.old.items ≡ length history.now }
        ensures place { IfOk result (λ o. IfSome o (λ len.
            IsPlace (machine_of request.now) history.now self.new)) }
        ensures some { IfOk result (λ o. IfSome o (λ len. IsHeardNext (made_by.Script script)
            history.now self.old.known self.new.known request.now transcript.now len
            marks.old.items marks.new.items)) }
        ensures none { IfOk result (λ o. IfNone o (IsUnheard (made_by.Script script)
            history.now self.old.known request.now transcript.now)) }
        ensures marks { length marks.new.items ≡ length marks.old.items }
    {
        kinds_law();
        texts_law();
        replies_law();
        let known = self.known;
        let count = count_of(history);
        match first_named(transcript) {
            Some(named) => {
                if is_outside(named.step, known, count) {
                    return Ok(None);
                }
                self.begin(alloc, request.machine(), history)?;
                self.known = named.step;
                let Some(walk) = &mut self.walk else {
                    unreachable!();
                };
                hear_named(
                    alloc, walk, known, script, history, request, named, transcript, marks,
                )
            }
            None => Ok(None),
        }
    }
}

// How many entries a history has.
fn count_of(history: &[Placed]) -> u64
    ensures is { result ≡ length history.now }
    ensures few { length history.now < 2 ^ 64 }
{
    history.len() as u64
}

// Whether a step is before what was known, or beyond so many entries.
fn is_outside(step: u64, known: u64, count: u64) -> bool
    ensures outside { result ≡ true → (step < known) ⊎ (count < step) }
    ensures since { result ≡ false → known ≤ step }
    ensures within { result ≡ false → step ≤ count }
    ensures few { step < 2 ^ 64 }
{
    step < known || count < step
}

// How long the reply to a request of the script is that a transcript begins with, where this names so many entries, no fewer
// than were known; the entry that it added, if it added one, is marked. None exactly where it begins with no such reply.
fn hear_named(
    alloc: Global,
    walk: &mut Walk,
    known: u64,
    script: u8,
    history: &[Placed],
    request: &Request,
    named: Named,
    transcript: &[u8],
    marks: &mut Vec<bool>,
) -> Result<Option<usize>, NoMemory>
    requires by { IsBy (machine_of request.now) history.now known walk.old }
    requires shared { stands_alone request.now ≡ false }
    requires sound { IsSound history.now }
    requires since { known ≤ named.step }
    requires few { length history.now < 2 ^ 64 }
    requires within { named.step ≤ length history.now }
    requires front { Names transcript.now named.step named.letter }
    requires marks { length marks.old.items ≡ length history.now }
    ensures by { IfOk result (λ o. IfSome o (λ len.
        IsBy (machine_of request.now) history.now named.step walk.new)) }
    ensures some { IfOk result (λ o. IfSome o (λ len. IsHeardNext (made_by.Script script)
        history.now known named.step request.now transcript.now len
        marks.old.items marks.new.items)) }
    ensures none { IfOk result (λ o. IfNone o (IsUnheard (made_by.Script script)
        history.now known request.now transcript.now)) }
    ensures marks { length marks.new.items ≡ length marks.old.items }
{
    kinds_law();
    texts_law();
    replies_law();
    along_law();
    if tells_of_none(request, named.letter) {
        go_to(walk, named.step)?;
        return told_here(alloc, walk, known, request, transcript);
    }
    if named.step == known {
        return Ok(None);
    }
    let placed = &history[(named.step - 1) as usize];
    if !is_of_script(placed.author, script) {
        return Ok(None);
    }
    go_to(walk, named.step - 1)?;
    match added_here(alloc, walk, known, request, placed, transcript) {
        Ok(Some(len)) => {
            mark(marks, named.step);
            Ok(Some(len))
        }
        Ok(None) => Ok(None),
        Err(error) => Err(error),
    }
}

// Whether a reply to the request whose answer begins with this byte tells of no new entry.
fn tells_of_none(request: &Request, letter: u8) -> bool
    ensures { result ≡ (asks_only request.now || tells_by_letter letter) }
{
    is_only_asked(request) || tells_none(letter)
}

// Marks the entry of a step.
fn mark(marks: &mut Vec<bool>, step: u64)
    requires some { 0 < step }
    requires within { step ≤ length marks.old.items }
    ensures marked { marks.new.items ≡ set marks.old.items (step - 1) true }
{
    marks[(step - 1) as usize] = true;
}

// How long the reply to a request is that adds nothing behind the entries so far, where a transcript begins with it. None
// exactly where it begins with no such reply.
fn told_here(
    alloc: Global,
    walk: &mut Walk,
    known: u64,
    request: &Request,
    transcript: &[u8],
) -> Result<Option<usize>, NoMemory>
    requires may { MayAsk request.now walk.old }
    requires knows { Knows walk.old known }
    ensures compared { IsCompared (Tells walk.old.history known request.now) transcript.now
        (length walk.old.track.history) result }
    ensures same { IfOk result (λ o. IfSome o (λ len. walk.new ≡ walk.old)) }
{
    match request {
        Request::Segment { test, metric, .. } => {
            unpublished(alloc, walk, known, test, metric, transcript)
        }
        _ => told_behind(alloc, walk, request, transcript),
    }
}

// The same of a reply that adds the journal's next entry.
fn added_here(
    alloc: Global,
    walk: &mut Walk,
    known: u64,
    request: &Request,
    placed: &Placed,
    transcript: &[u8],
) -> Result<Option<usize>, NoMemory>
    requires may { MayAsk request.now walk.old }
    requires knows { Knows walk.old known }
    requires next { coming walk.old ≡ Some placed.now }
    requires said { IsEntry placed.now.entry }
    ensures compared { IsCompared (Adds placed.now.author walk.old.history known request.now)
        transcript.now (length walk.old.track.history + 1) result }
    ensures goes { IfOk result (λ o. IfSome o (λ len. GoesOn walk.old walk.new)) }
{
    match request {
        Request::Segment { test, metric, .. } => {
            published_behind(alloc, walk, known, placed, test, metric, transcript)
        }
        _ => added_behind(alloc, walk, request, placed, transcript),
    }
}

// Goes on to so many entries of a history.
pub(crate) fn go_to(walk: &mut Walk, count: u64) -> Result<(), NoMemory>
    requires sound { IsSound walk.old.history }
    requires by { IsBy walk.old.track.machine walk.old.history count walk.old }
    ensures { OnOk result (IsBehind walk.old.track.machine walk.old.history count walk.new) }
{
    along_law();
    while walk.len() < count {
        if !walk.go_on()? {
            unreachable!();
        }
    }
    Ok(())
}

// Whether an entry is the script's of a number.
fn is_of_script(author: Author, script: u8) -> bool
    ensures { IsTrue result ↔ (author ≡ made_by.Script script) }
{
    match author {
        Author::Script(number) => number == script,
        _ => false,
    }
}
