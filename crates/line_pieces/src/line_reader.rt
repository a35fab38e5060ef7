//! What reads lines that come in pieces.
ghost use Rattle.std.specs.Prelude.{◌≡◌, ◌+◌, ◌^◌, ◌<◌, ◌≤◌, [], ◌∷◌, ◌++◌, OnOk, IfErr};
ghost use Rattle.line_pieces.specs.Pieces.{Reading, HasNoLineFeed, ReadsMore, MoreRefused, IsOpen};

use crate::stop::Stop;

/// Reads lines whose bytes come in pieces. It counts the whole lines, and keeps what it must of them and of the line that
/// has begun.
pub trait LineReader {
    /// What it is to have read some bytes, and which lines are refused.
    ghost reading: { Reading Self };

    /// Takes bytes up to the next line feed, and the line feed.
    fn take_line(&mut self, part: &[u8]) -> Result<(), Stop>
        requires number { reading.whole_lines self.old < 2 ^ 32 }
        requires part { HasNoLineFeed part.now }
        ensures limit { reading.most self.new ≡ reading.most self.old }
        ensures lines { reading.whole_lines self.new ≤ reading.whole_lines self.old + 1 }
        ensures ok { OnOk result (ReadsMore reading (part.now ++ 10 ∷ []) self.old self.new) }
        ensures err { IfErr result (MoreRefused reading (part.now ++ 10 ∷ []) self.old) };

    /// Takes the next bytes of the line that has begun.
    fn extend_line(&mut self, part: &[u8]) -> Result<(), Stop>
        requires number { reading.whole_lines self.old < 2 ^ 32 }
        requires part { HasNoLineFeed part.now }
        ensures limit { reading.most self.new ≡ reading.most self.old }
        ensures lines { reading.whole_lines self.new ≡ reading.whole_lines self.old }
        ensures ok { OnOk result (ReadsMore reading part.now self.old self.new) }
        ensures err { IfErr result (MoreRefused reading part.now self.old) };

    /// Whether the line that has begun may go on; else how it is refused.
    fn may_go_on(&mut self) -> Result<(), Stop>
        requires { reading.whole_lines self.old < 2 ^ 32 }
        ensures limit { reading.most self.new ≡ reading.most self.old }
        ensures ok { OnOk result (IsOpen reading self.old) }
        ensures err { IfErr result (MoreRefused reading [] self.old) };
}
