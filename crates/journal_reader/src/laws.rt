//! Laws of the definitions, as public functions that do nothing: their contracts are what they are for.
ghost use Rattle.journal_reader.specs.Laws.{NoneRefused, OneReading, OneRefusal};

use journal_lines::lines_law;
use line_text::names_law;

/// Bytes are the text of one list of journals at most.
pub fn reading_law()
    ensures { OneReading }
{
    lines_law();
}

/// One line of bytes at most is the first that is refused, and none is where they are the text of journals.
pub fn refusal_law()
    ensures one { OneRefusal }
    ensures none { NoneRefused }
{
    names_law();
    lines_law();
}
