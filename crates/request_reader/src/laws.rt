//! Laws of scripts. The functions do nothing: their contracts are what they are for.
ghost use Rattle.request_reader.specs.Reading.{OneReading, PiecesComeFirst, PiecesJoin, PiecesAreFirst};

use line_text::lines_law;
use request_words::one_item_law;

/// Whole pieces in front of bytes are read before them, whatever the bytes; and whole pieces join.
pub fn pieces_law()
    ensures first { PiecesComeFirst }
    ensures join { PiecesJoin }
{}

/// Bytes ask one list of items and have one ending, and begin with what the whole pieces in front of them ask.
pub fn reading_law()
    ensures one { OneReading }
    ensures first { PiecesAreFirst }
{
    lines_law();
    one_item_law();
}
