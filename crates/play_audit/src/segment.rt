//! Replies to requests for segmentations, compared with a transcript.
ghost use Rattle.std.specs.Prelude.{◌≡◌, ◌≢◌, ℕ, ◌≤◌, ◌<◌, ◌+◌, ◌-◌, ◌↔◌, true, false, List, ◌++◌, Some, length, IfOk, IfSome, IfNone, IsTrue};
ghost use Rattle.history_model.specs.{Publications.{cut_count, last_publication}, Runs.is_known as known_in};
ghost use Rattle.journal_walk.specs.Walks.{GoesOn, IsAlong, added, coming};
ghost use Rattle.play_model.specs.Replies.{Adds, Tells};
ghost use Rattle.request_model.specs.declared.requests.Request.TheVariants.{Segment};
ghost use Rattle.play_audit.specs.{Places.{IsSound, Knows}, Replies.IsCompared};
ghost use Rattle.metric_table.specs.Limits.{most};
ghost use Rattle.metric_table.specs.declared.limits.Limit.TheVariants as limit;
ghost use Rattle.reply_text.specs.Replies.{text_of};
ghost use Rattle.track_model.specs.{Outcomes.refuses, Replies.reply_of};
ghost use Rattle.play_audit.specs.{Segments.{HasFewCuts, IsFullNext, IsKnownAt, IsLastVersion, IsNotFull, PassesCuts, Publishes}, Texts.BeginsWith};

use crate::NoMemory;
use crate::place::go_to;
use crate::text::begins_with;
use history_model::{Entry, Placed, Publication, publication_law};
use journal_walk::{Walk, along_law};
use line_text::Name;
use metric_table::Limit;
use play_model::replies_law;
use reply_laws::{one_reply_law, texts_law};
use request_model::{Answer, Refusal};
use segment_cost::one_certificate_law;
use std::alloc::Global;

// How long the reply to a request for a segmentation is that publishes the next entry of the journal, of a version that is no
// older than what was known, where a transcript begins with it. None exactly where it begins with no such reply.
pub(crate) fn published_behind(
    alloc: Global,
    walk: &mut Walk,
    known: u64,
    placed: &Placed,
    test: &Name,
    metric: &Name,
    transcript: &[u8],
) -> Result<Option<usize>, NoMemory>
    requires knows { Knows walk.old known }
    requires next { coming walk.old ≡ Some placed.now }
    ensures compared { IsCompared (Adds placed.now.author walk.old.history known
        (Segment walk.old.track.machine test.now metric.now))
        transcript.now (length walk.old.track.history + 1) result }
    ensures goes { IfOk result (λ o. IfSome o (λ len. GoesOn walk.old walk.new)) }
{
    texts_law();
    replies_law();
    one_reply_law();
    if !is_publication(&placed.entry, test, metric, known) {
        return Ok(None);
    }
    match walk.publish_next()? {
        Some(reply) => begins_with(alloc, transcript, reply),
        None => Ok(None),
    }
}

// Whether an entry publishes a series at a version that is no older than what was known.
fn is_publication(entry: &Entry, test: &Name, metric: &Name, known: u64) -> bool
    ensures { IsTrue result ↔ Publishes entry.now test.now metric.now known }
{
    match entry {
        Entry::Publish { publication } => is_of(publication.get(), test, metric, known),
        _ => false,
    }
}

fn is_of(p: &Publication, test: &Name, metric: &Name, known: u64) -> bool
    ensures { IsTrue result ↔ ((p.now.test ≡ test.now) × (p.now.metric ≡ metric.now)
        × (known ≤ p.now.version)) }
{
    p.test == *test && p.metric == *metric && p.version >= known
}

// How long the reply to a request for a segmentation is that publishes nothing behind the entries so far, where a transcript
// begins with it: its series isn't known, a later version was published than was known, or a limit would be passed. None
// exactly where it begins with no such reply.
pub(crate) fn unpublished(
    alloc: Global,
    walk: &mut Walk,
    known: u64,
    test: &Name,
    metric: &Name,
    transcript: &[u8],
) -> Result<Option<usize>, NoMemory>
    requires knows { Knows walk.old known }
    ensures compared { IsCompared
        (Tells walk.old.history known (Segment walk.old.track.machine test.now metric.now))
        transcript.now (length walk.old.track.history) result }
    ensures same { walk.new ≡ walk.old }
{
    texts_law();
    replies_law();
    publication_law();
    if !is_known(walk, test, metric) {
        return refused(alloc, walk, Refusal::UnknownSeries, transcript);
    }
    let last = last_version(walk, test, metric);
    if last <= known {
        return full(alloc, walk, known, last, test, metric, transcript);
    }
    match refused(alloc, walk, Refusal::Stale(last), transcript)? {
        Some(len) => Ok(Some(len)),
        None => full(alloc, walk, known, last, test, metric, transcript),
    }
}

fn is_known(walk: &Walk, test: &Name, metric: &Name) -> bool
    ensures { result ≡ known_in (record { test = test.now; metric = metric.now }) (added walk.now) }
{
    walk.track().is_known(test, metric)
}

// The version of a series' last publication; 0 where nothing was published of it.
fn last_version(walk: &Walk, test: &Name, metric: &Name) -> u64
    ensures is { IsLastVersion (last_publication (record { test = test.now; metric = metric.now })
        (added walk.now)) result }
    ensures past { result ≤ length walk.now.track.history }
{
    match walk.track().published(test, metric) {
        Some(done) => done.version,
        None => 0,
    }
}

// The same of one that would pass a limit, of a version that is no older than was known, nor than the last that was published.
fn full(
    alloc: Global,
    walk: &mut Walk,
    known: u64,
    last: u64,
    test: &Name,
    metric: &Name,
    transcript: &[u8],
) -> Result<Option<usize>, NoMemory>
    requires known { IsKnownAt walk.old known (record { test = test.now; metric = metric.now }) last }
    ensures some { IfOk result (λ o. IfSome o (IsFullNext walk.old known
        (record { test = test.now; metric = metric.now }) transcript.now)) }
    ensures none { IfOk result (λ o. IfNone o (IsNotFull walk.old known
        (record { test = test.now; metric = metric.now }) transcript.now)) }
    ensures same { walk.new ≡ walk.old }
{
    publication_law();
    if walk.len() >= Limit::Steps.most() {
        let _cuts = walk.cuts_now(alloc, test, metric)?;
        return refused(alloc, walk, Refusal::Full(Limit::Steps), transcript);
    }
    match refused(alloc, walk, Refusal::Full(Limit::Cuts), transcript)? {
        Some(len) => {
            if passes_cuts(alloc, walk, known.max(last), test, metric)? {
                return Ok(Some(len));
            }
            Ok(None)
        }
        None => Ok(None),
    }
}

// Whether a segmentation of a version from this one on has more cuts than there is room for. Goes along the journal again.
fn passes_cuts(
    alloc: Global,
    walk: &Walk,
    from: u64,
    test: &Name,
    metric: &Name,
) -> Result<bool, NoMemory>
    requires knows { Knows walk.now from }
    ensures yes { IfOk result (λ passes. passes ≡ true → PassesCuts walk.now.history
        (record { test = test.now; metric = metric.now }) from
        (length walk.now.track.history) (most limit.Cuts - cut_count (added walk.now))) }
    ensures no { IfOk result (λ passes. passes ≡ false → (version : ℕ) → from ≤ version
        → version ≤ length walk.now.track.history → HasFewCuts walk.now.history
        (record { test = test.now; metric = metric.now }) version
        (most limit.Cuts - cut_count (added walk.now))) }
    ensures few { cut_count (added walk.now) ≤ most limit.Cuts }
{
    along_law();
    let room = Limit::Cuts.most() - walk.track().cut_count();
    let mut past = walk.again(alloc)?;
    go_to(&mut past, from)?;
    has_past(alloc, &mut past, walk.len(), room, test, metric)
}

// Whether a segmentation of a version from the present one to another has more cuts than this.
fn has_past(
    alloc: Global,
    past: &mut Walk,
    to: u64,
    room: u64,
    test: &Name,
    metric: &Name,
) -> Result<bool, NoMemory>
    requires along { IsAlong past.old }
    requires sound { IsSound past.old.history }
    requires since { length past.old.track.history ≤ to }
    requires within { to ≤ length past.old.history }
    ensures yes { IfOk result (λ has. has ≡ true → PassesCuts past.old.history
        (record { test = test.now; metric = metric.now })
        (length past.old.track.history) to room) }
    ensures no { IfOk result (λ has. has ≡ false → (version : ℕ)
        → length past.old.track.history ≤ version → version ≤ to
        → HasFewCuts past.old.history (record { test = test.now; metric = metric.now })
        version room) }
{
    along_law();
    one_certificate_law();
    while past.len() < to {
        if past.cuts_now(alloc, test, metric)? > room {
            return Ok(true);
        }
        if !past.go_on()? {
            unreachable!();
        }
    }
    let cuts = past.cuts_now(alloc, test, metric)?;
    Ok(cuts > room)
}

// The length of a refusal behind the entries so far, where a transcript begins with it.
fn refused(
    alloc: Global,
    walk: &Walk,
    reason: Refusal,
    transcript: &[u8],
) -> Result<Option<usize>, NoMemory>
    ensures some { IfOk result (λ o. IfSome o (BeginsWith transcript.now
        (reply_of (added walk.now) (refuses reason)))) }
    ensures none { IfOk result (λ o. IfNone o ((rest : List ℕ)
        → transcript.now ≢ text_of (reply_of (added walk.now) (refuses reason)) ++ rest)) }
{
    let reply = walk.track().told(Answer::Refused(reason));
    begins_with(alloc, transcript, reply)
}
