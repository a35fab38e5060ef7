//! What a store's history of a machine answers: what the machine's own history did.
//!
//! A store keeps a history without its publications. Proved, by [`replies_law`]: each request that neither publishes nor looks
//! at what was published gets the same reply on it, with each step in the reply counted without publications, unless the history
//! has no room for a step; and a segmentation that neither history refuses finds the same cuts.
//!
//! The definitions are in `specs/Replies.antt`. Stands on `keep_rows` for what is kept, and on `track_model` for what a
//! request comes to.
#![tactic(auto)]

ghost use Rattle.kept_replies.specs.Replies.{StoreKeepsEntries, AnswersAlike, RepliesAlike, HistoriesAlike, SegmentsAlike};

use segment_cost::one_certificate_law;
use segment_model::values_law;
use track_model::outcome_law;

/// A history without its publications answers as the history does, but for the numbers of steps.
pub fn replies_law()
    ensures kept { StoreKeepsEntries }
    ensures answers { AnswersAlike }
    ensures replies { RepliesAlike }
    ensures histories { HistoriesAlike }
    ensures segments { SegmentsAlike }
{
    outcome_law();
    one_certificate_law();
    values_law();
}
