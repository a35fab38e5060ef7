//! Laws of bisections, as public functions that do nothing.
ghost use Rattle.bisect_core.specs.Laws.{EachIsWithinBound, EndsWereAnswered, FoundIsFirstBad};

/// After any list of answers to what was asked, low is below high, the distance left has halved at each question, and
/// there were at most as many questions as the range allows. Does nothing: its contract is what it is for.
pub fn bound_law()
    ensures { EachIsWithinBound }
{}

/// Low is the first place or was answered good; high is the last place or was answered bad. Does nothing: its contract is
/// what it is for.
pub fn ends_law()
    ensures { EndsWereAnswered }
{}

/// What is found is two neighbours, and the higher one is the first bad place in each naming of the places that agrees
/// with the ends and the answers and has no good place behind a bad one. Does nothing: its contract is what it is for.
pub fn found_law()
    ensures { FoundIsFirstBad }
{}
