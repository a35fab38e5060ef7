//! Laws of the definitions, as public functions that do nothing: their contracts are what they are for.
ghost use Rattle.play_seats.specs.{Gathered.GatheredAreAll, Shared.SharingEnds, Fitting.RunOfScriptsFits, Joining.{JoiningStarts, JoiningSplits, JoiningGoesOn, JoiningEnds}};

/// What the first pass of a machine's lock knows from the lock's beginning on, through splits and joins: at the end, where it
/// is whole, each entry behind the kept ones was made by one of the passes that were joined into it.
pub fn joining_law()
    ensures starts { JoiningStarts }
    ensures splits { JoiningSplits }
    ensures goes_on { JoiningGoesOn }
    ensures ends { JoiningEnds }
    ensures gathered { GatheredAreAll }
    ensures shared { SharingEnds }
    ensures fits { RunOfScriptsFits }
{}
