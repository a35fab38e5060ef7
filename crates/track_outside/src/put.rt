//! Writing all of some bytes.
ghost use Rattle.std.specs.Prelude.{◌≡◌, OnOk, OnErr};
ghost use Rattle.track_outside.specs.Calls.{Took, FailedIn};

use crate::sink::Sink;
use crate::source::Failed;

/// Writes all of the bytes, or answers `Failed`: the sink has then taken a first part of them, perhaps none, and the
/// answer does not tell how many. Calls `write` at most once for each byte, and never where there are none. Takes no
/// memory of its own.
pub fn put_all<S: Sink>(sink: &mut S, bytes: &[u8]) -> Result<(), Failed>
    ensures ok { OnOk result (Took S.Sink sink.old sink.new bytes.now) }
    ensures err { OnErr result (FailedIn S.Sink sink.old sink.new bytes.now) }
    ensures named { S.name sink.new ≡ S.name sink.old }
{
    let mut at = 0;
    while at < bytes.len() {
        at += sink.write(&bytes[at..])?;
    }
    Ok(())
}
