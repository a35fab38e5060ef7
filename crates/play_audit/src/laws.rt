//! Laws of the definitions, as a public function that does nothing: its contract is what it is for.
ghost use Rattle.play_audit.specs.Laws.{OneCutOff, OneVerdict};

use history_model::publication_law;
use play_model::replies_law;
use reply_laws::{kinds_law, one_reply_law, texts_law};

/// Files have one verdict at most, and one script at most is the first that is cut off.
pub fn one_verdict_law()
    ensures verdict { OneVerdict }
    ensures cut_off { OneCutOff }
{
    kinds_law();
    texts_law();
    one_reply_law();
    replies_law();
    publication_law();
    request_reader::reading_law();
    journal_reader::reading_law();
    journal_reader::refusal_law();
}
