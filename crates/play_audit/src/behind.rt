//! Replies to requests that segment nothing, compared with a transcript.
ghost use Rattle.std.specs.Prelude.{◌≡◌, ◌≤◌, ◌<◌, ◌+◌, ◌-◌, ℕ, Some, true, false, length, IfOk, IfSome};
ghost use Rattle.journal_walk.specs.Walks.{GoesOn, coming};
ghost use Rattle.play_model.specs.Replies.{Adds, Tells};
ghost use Rattle.track_entry.specs.Texts.{IsEntry};
ghost use Rattle.track_model.specs.Counts.{is_segment};
ghost use Rattle.request_model.specs.Requests.{machine_of};
ghost use Rattle.play_audit.specs.{Places.MayAsk, Replies.IsCompared, Texts.{HasEntry, IsAnswered}};

use crate::NoMemory;
use crate::same::is_entry;
use crate::text::{front_len, reply_text};
use history_model::Placed;
use journal_walk::Walk;
use play_model::replies_law;
use reply_laws::{one_reply_law, texts_law};
use request_model::Request;
use std::alloc::Global;

// How long the reply to a request is that adds nothing behind the entries so far, where a transcript begins with it. None
// exactly where it begins with no such reply.

pub(crate) fn told_behind(
    alloc: Global,
    walk: &mut Walk,
    request: &Request,
    transcript: &[u8],
) -> Result<Option<usize>, NoMemory>
    requires may { MayAsk request.now walk.old }
    requires plain { is_segment request.now ≡ false }
    ensures compared { (known : ℕ) → known ≤ length walk.old.track.history
        → IsCompared (Tells walk.old.history known request.now) transcript.now
        (length walk.old.track.history) result }
    ensures same { IfOk result (λ o. IfSome o (λ len. walk.new ≡ walk.old)) }
{
    texts_law();
    replies_law();
    one_reply_law();
    let count = walk.len();
    let text = answered(alloc, walk, request)?;
    if walk.len() != count {
        return Ok(None);
    }
    Ok(front_len(transcript, &text))
}

// The text of the reply to a request, which is answered behind the entries so far.
fn answered(alloc: Global, walk: &mut Walk, request: &Request) -> Result<Vec<u8>, NoMemory>
    requires asked { machine_of request.now ≡ walk.old.track.machine }
    requires plain { is_segment request.now ≡ false }
    ensures { IfOk result (λ text. IsAnswered walk.old walk.new request.now text.items) }
{
    let reply = walk.answer(request)?;
    reply_text(alloc, reply)
}

// The same of a reply that adds the next entry of the journal.

pub(crate) fn added_behind(
    alloc: Global,
    walk: &mut Walk,
    request: &Request,
    placed: &Placed,
    transcript: &[u8],
) -> Result<Option<usize>, NoMemory>
    requires may { MayAsk request.now walk.old }
    requires plain { is_segment request.now ≡ false }
    requires next { coming walk.old ≡ Some placed.now }
    requires said { IsEntry placed.now.entry }
    ensures compared { (known : ℕ) → known ≤ length walk.old.track.history
        → IsCompared (Adds placed.now.author walk.old.history known request.now) transcript.now
        (length walk.old.track.history + 1) result }
    ensures goes { IfOk result (λ o. IfSome o (λ len. GoesOn walk.old walk.new)) }
{
    texts_law();
    replies_law();
    one_reply_law();
    let step = walk.len() + 1;
    let text = answered(alloc, walk, request)?;
    if !has_entry(alloc, walk, step, placed)? {
        return Ok(None);
    }
    Ok(front_len(transcript, &text))
}

// Whether the entry of a step, from 1, is that of a line.
fn has_entry(alloc: Global, walk: &Walk, step: u64, placed: &Placed) -> Result<bool, NoMemory>
    requires some { 0 < step }
    requires said { IsEntry placed.now.entry }
    ensures yes { IfOk result (λ has. has ≡ true → HasEntry walk.now (step - 1) placed.now.entry) }
    ensures no { IfOk result (λ has. has ≡ false
        → HasEntry walk.now (step - 1) placed.now.entry → ⊥) }
{
    match walk.track().entry(step) {
        Some(added) => is_entry(alloc, &added.entry, &placed.entry),
        None => Ok(false),
    }
}
