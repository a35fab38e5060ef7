//! Laws of best cut lists at several penalties, and of paths.
ghost use Rattle.std.specs.Prelude.{List};
ghost use Rattle.segment_model.specs.Segments.{Position};
ghost use Rattle.penalty_path.specs.Laws.{
  CutsFall,
  CountIsList,
  BetweenIsSame,
  PathIsUnique,
  PathIsShort,
};
ghost use Rattle.penalty_path.specs.Known.{Known};

use segment_cost::one_certificate_law;
use segment_model::{agreeing_costs_law, best_list_law, cost_law};

/// The number of cuts never rises with the penalty; at two penalties with equally many cuts, and at all between, the best
/// cut list is one.
pub fn penalties_law()
    ensures fall { CutsFall }
    ensures count { CountIsList }
    ensures between { BetweenIsSame }
{
    best_list_law();
}

/// No points have two paths over a range of penalties, and a path has at most as many stretches as there are positions,
/// or one.
pub fn path_law()
    ensures unique { PathIsUnique }
    ensures short { PathIsShort }
{
    points_law();
}

// The laws of the penalties, for all points.
pub(crate) fn points_law()
    ensures { (points : List Position) → Known points }
{
    penalties_law();
    best_list_law();
    cost_law();
    agreeing_costs_law();
    one_certificate_law();
}
