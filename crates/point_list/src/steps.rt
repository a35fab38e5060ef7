//! By which steps values may come, as a law.
ghost use Rattle.point_list.specs.Steps.{NoneCame, StayLater, StayInserted, MayComeThen};

/// Where each value came by a step or an earlier one, this stays so at later steps and with a value of that step, and a
/// small value may come by that step at any commit. Does nothing: its contract is what it is for.
pub fn steps_law()
    ensures none { NoneCame }
    ensures later { StayLater }
    ensures inserted { StayInserted }
    ensures comes { MayComeThen }
{}
