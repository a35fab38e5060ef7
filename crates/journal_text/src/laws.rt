//! A law of the text, as a public function that does nothing: its contract is what it is for.
ghost use Rattle.journal_text.specs.Reading.{HasOneReading};

use journal_lines::lines_law;

/// Bytes are the journals' text of one list of machines at most, each with its name and its history: nobody can read them
/// otherwise.
pub fn one_reading_law()
    ensures { HasOneReading }
{
    lines_law();
}
