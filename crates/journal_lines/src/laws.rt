//! Laws of the lines, as a public function that does nothing: its contract is what it is for.
ghost use Rattle.journal_lines.specs.Laws.{OneHead, OneStep, OneText};

use line_text::{names_law, numbers_law};
use track_entry::entries_law;

/// A line is that of one machine at most, or of one entry at most; and bytes are the text of one list of journals at most.
pub fn lines_law()
    ensures heads { OneHead }
    ensures steps { OneStep }
    ensures texts { OneText }
{
    names_law();
    numbers_law();
    entries_law();
}
