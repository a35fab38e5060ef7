//! Laws of sums of distances.
ghost use Rattle.distance_model.specs.Distances.{MiddleIsCentre, CentreIsUnique, LeastIsComputed};

/// The value in the middle of some values, or the lower of two, is their one centre, and the sum of distances about it is
/// the least. Does nothing: its contract is what it is for.
pub fn absolute_law()
    ensures middle { MiddleIsCentre }
    ensures unique { CentreIsUnique }
    ensures least { LeastIsComputed }
{}
