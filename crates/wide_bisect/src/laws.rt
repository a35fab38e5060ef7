//! Laws of searches by rounds, as public functions that do nothing.
ghost use Rattle.wide_bisect.specs.Laws.{EndsWereAnswered, OpenAreTestable, FoundAreNeighbours, EachIsWithinBound, OneIsHalfWay, EachAsksOpen, EachTakesAway};

/// After any rounds that were taken low is the first place or was answered good, and high is the last place or was
/// answered bad. Does nothing: its contract is what it is for.
pub fn ends_law()
    ensures { EndsWereAnswered }
{}

/// While nothing ended the search, the open places are those strictly between its ends that no round answered 125. Does
/// nothing: its contract is what it is for.
pub fn open_law()
    ensures { OpenAreTestable }
{}

/// What is found is the ends of the search, and each place between them was answered 125. Does nothing: its contract is
/// what it is for.
pub fn found_law()
    ensures { FoundAreNeighbours }
{}

/// The open places fall to a (k + 1)-th in each round without an answer 125, so that there are few such rounds. Does
/// nothing: its contract is what it is for.
pub fn bound_law()
    ensures { EachIsWithinBound }
{}

/// Asking one place at a time, and while none is passed over, the search asks the place half way. Does nothing: its
/// contract is what it is for.
pub fn half_way_law()
    ensures { OneIsHalfWay }
{}

/// The places of a round rise, and each is open and no end of the list. Does nothing: its contract is what it is for.
pub fn asked_law()
    ensures { EachAsksOpen }
{}

/// A round takes a place away from the open ones, at least, while the search runs. Does nothing: its contract is what it is
/// for.
pub fn fewer_law()
    ensures { EachTakesAway }
{}
