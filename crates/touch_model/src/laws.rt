//! Laws of touches, as public functions that do nothing: their contracts are what they are for.
ghost use Rattle.touch_model.specs.Laws.{
  TouchesGrow,
  TouchesArePast,
  KnownGrows,
  RetractedStays,
  LatestStays,
};

use history_model::{growth_law, publication_law};

/// The last touch of a series with one entry more, and which series are known then.
pub fn touch_law()
    ensures last { TouchesGrow }
    ensures past { TouchesArePast }
    ensures known { KnownGrows }
    ensures retracted { RetractedStays }
{
    growth_law();
}

/// A series that is not behind its last publication stays so, until something touches it.
pub fn stale_law()
    ensures { LatestStays }
{
    publication_law();
}
