//! Requests answered, and kept entries added again, on a machine with claims.
ghost use Rattle.std.specs.Prelude.{◌≡◌, IfOk, OnErr, OnOk, false};
ghost use Rattle.track_model.specs.{Counts.is_segment, Outcomes.Outcome, Tracks.{ComesTo, IsStep}};
ghost use Rattle.request_model.specs.Requests.{machine_of};
ghost use Rattle.track_step.specs.{Made.IsPlain, Replays.IsReplayed};
ghost use Rattle.track_state.specs.{Kept.KeepsClaims, Work.history_of};

use crate::NoMemory;
use crate::state::TrackState;
use history_model::{Author, Entry, publication_law};
use request_model::{Reply, Request};
use touch_model::{stale_law, touch_law};
use track_step::{replay, step};

impl TrackState {
    /// Answers a request about this machine that segments nothing. All claims stay, but for those that a limit left on
    /// series which the request touches.
    pub fn step(&mut self, author: Author, request: &Request) -> Result<Reply, NoMemory>
        requires asked { machine_of request.now ≡ self.old.track.machine }
        requires plain { is_segment request.now ≡ false }
        ensures step { IfOk result (λ reply. (o : Outcome)
            × ComesTo (history_of self.old) 0 request.now o
            × IsStep self.old.track author o self.new.track reply) }
        ensures claims { OnOk result (KeepsClaims self.old self.new) }
        ensures same { OnErr result (self.new ≡ self.old) }
    {
        publication_law();
        touch_law();
        stale_law();
        let reply = step(&mut self.track, author, request)?;
        self.track.history_law();
        Ok(reply)
    }

    /// Adds a kept entry, which is no publication; false exactly where it isn't allowed after those before it, and then
    /// nothing changes. All claims stay, but for those that a limit left on series which the entry touches.
    pub fn replay(&mut self, entry: Entry) -> Result<bool, NoMemory>
        requires { IsPlain entry }
        ensures replayed { IfOk result
            (λ added. IsReplayed self.old.track entry added self.new.track) }
        ensures claims { OnOk result (KeepsClaims self.old self.new) }
        ensures same { OnErr result (self.new ≡ self.old) }
    {
        publication_law();
        touch_law();
        stale_law();
        let added = replay(&mut self.track, entry)?;
        self.track.history_law();
        Ok(added)
    }
}
