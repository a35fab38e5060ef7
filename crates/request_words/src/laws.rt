//! The law of a line. The function does nothing: its contract is what it is for.
ghost use Rattle.request_words.specs.Items.{OneItem};

use go_bench_text::one_reading_law;
use lnt_report::one_due_law;

/// A line asks one thing with its body.
pub fn one_item_law()
    ensures { OneItem }
{
    one_reading_law();
    one_due_law();
}
