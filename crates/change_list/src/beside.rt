//! The commits beside a cut of a finished segmentation.
ghost use Rattle.std.specs.Prelude.{◌<◌, List, length, get_or};
ghost use Rattle.change_list.specs.{Changes.AreChanges, Beside.{AreBeside, IsOf}, declared.change.Change.Change};

use crate::made::cuts_law;
use segment_cost::Done;

/// The commits between which a change lies.
#[derive(Clone, Copy, Debug, PartialEq, Eq)]
pub struct Beside {
    /// The last commit before the cut.
    pub before: u64,
    /// The first commit behind it.
    pub after: u64,
}

/// The commits beside cut i, from 0: those of change i of all. Makes no other change, and no centre.
///
/// Constant time; takes no memory.
pub fn commits_beside(done: &Done, i: usize) -> Beside
    requires { i < length done.now.cert.cuts }
    ensures commits { AreBeside done.now.points done.now.cert.cuts i result }
    ensures listed { (made : List Change)
        → AreChanges done.now.points done.now.metric done.now.cert.cuts made
        → (d : Change) → IsOf (get_or made i d) result }
{
    cuts_law(done);
    let points = &done.points;
    let cuts = done.cert.cuts.as_slice();
    let cut = cuts[i] as usize;
    Beside {
        before: points.commit(cut - 1),
        after: points.commit(cut),
    }
}
