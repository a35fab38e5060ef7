//! Replies, compared with a transcript.
ghost use Rattle.std.specs.Prelude.{◌≡◌, ◌≢◌, ◌<◌, ◌^◌, ◌++◌, ℕ, List, IfOk, IfSome, IfNone, drop, false, length, true};
ghost use Rattle.reply_text.specs.Replies.{text_of};
ghost use Rattle.reply_laws.specs.Kinds.{Names, asks_only, tells_by_letter};
ghost use Rattle.track_model.specs.Outcomes.{refuses};
ghost use Rattle.track_model.specs.Replies as replies;
ghost use Rattle.play_audit.specs.Texts.{BeginsWith};

use crate::NoMemory;
use journal_lines::first_word;
use line_text::read_u64;
use reply_text::put_reply;
use request_model::{Answer, Refusal, Reply, Request};
use std::alloc::Global;

// The length of a reply's text, where a transcript begins with it; none exactly where it doesn't. Linear in that text.
pub(crate) fn begins_with(
    alloc: Global,
    transcript: &[u8],
    reply: Reply,
) -> Result<Option<usize>, NoMemory>
    ensures some { IfOk result (λ o. IfSome o (BeginsWith transcript.now reply)) }
    ensures none { IfOk result (λ o. IfNone o ((rest : List ℕ)
        → transcript.now ≢ text_of reply ++ rest)) }
{
    let text = reply_text(alloc, reply)?;
    Ok(front_len(transcript, &text))
}

// The text of a reply.
pub(crate) fn reply_text(alloc: Global, reply: Reply) -> Result<Vec<u8>, NoMemory>
    ensures { IfOk result (λ text. text.items ≡ text_of reply) }
{
    let mut text = Vec::new(alloc);
    put_reply(alloc, &mut text, &reply)?;
    Ok(text)
}

// The length of bytes, where others begin with them.
pub(crate) fn front_len(bytes: &[u8], front: &[u8]) -> Option<usize>
    ensures some { IfSome result (λ len. (len ≡ length front.now)
        × (bytes.now ≡ front.now ++ drop len bytes.now)) }
    ensures none { IfNone result ((rest : List ℕ) → bytes.now ≢ front.now ++ rest) }
{
    if has_front(bytes, front) {
        return Some(front.len());
    }
    None
}

// Whether bytes begin with others.
fn has_front(bytes: &[u8], front: &[u8]) -> bool
    ensures yes { result ≡ true → bytes.now ≡ front.now ++ drop (length front.now) bytes.now }
    ensures no { result ≡ false → (rest : List ℕ) → bytes.now ≢ front.now ++ rest }
{
    if bytes.len() < front.len() {
        return false;
    }
    are_same(&bytes[..front.len()], front)
}

fn are_same(one: &[u8], other: &[u8]) -> bool
    ensures yes { result ≡ true → one.now ≡ other.now }
    ensures no { result ≡ false → one.now ≢ other.now }
{
    one == other
}

// The reply that a request is refused, which names no history.
pub(crate) fn apart(reason: Refusal) -> Reply
    ensures { result ≡ replies.apart (refuses reason) }
{
    Reply {
        step: 0,
        answer: Answer::Refused(reason),
    }
}

// What the beginning of a transcript's first reply tells.
#[derive(Clone, Copy, Drop)]
pub(crate) struct Named {
    // So many entries.
    pub(crate) step: u64,
    // The first byte of its answer.
    pub(crate) letter: u8,
}

// What the first reply of a transcript names; none exactly where it names nothing, so that no reply stands there.
pub(crate) fn first_named(transcript: &[u8]) -> Option<Named>
    ensures some { IfSome result (λ n. Names transcript.now n.step n.letter) }
    ensures none { IfNone result ((step letter : ℕ) → step < 2 ^ 64
        → ¬ Names transcript.now step letter) }
{
    let [b'@', rest @ ..] = transcript else {
        return None;
    };
    let Some(parts) = first_word(rest) else {
        return None;
    };
    let Some(step) = read_u64(parts.word) else {
        return None;
    };
    let [letter, ..] = parts.rest else {
        return None;
    };
    Some(Named {
        step,
        letter: *letter,
    })
}

// Whether an answer that begins with this byte tells of no new entry.
pub(crate) fn tells_none(letter: u8) -> bool
    ensures { result ≡ tells_by_letter letter }
{
    letter == b'E' || letter == b'd'
}

// Whether a request adds nothing, whatever its answer.
pub(crate) fn is_only_asked(request: &Request) -> bool
    ensures { result ≡ asks_only request.now }
{
    match request {
        Request::Changes { .. } => true,
        Request::Verify { .. } => true,
        Request::Job { .. } => true,
        Request::Runs { .. } => true,
        Request::Report { .. } => true,
        _ => false,
    }
}
