//! A law of the definitions, as a public function that does nothing: its contract is what it is for.
ghost use Rattle.track_room.specs.Whole.{JoinComesBack, NoneIsOut, NoneOutIsWhole, SplitBackStays, SplitGoesOut, WorkStaysOut};

/// Which passes are out: none of a new room; one that is split off goes out, stays the same whatever it does, and comes back
/// when it is joined; and a first pass of which none is out is whole.
pub fn whole_law()
    ensures new { NoneIsOut }
    ensures split { SplitGoesOut }
    ensures split_back { SplitBackStays }
    ensures work { WorkStaysOut }
    ensures join { JoinComesBack }
    ensures whole { NoneOutIsWhole }
{}
