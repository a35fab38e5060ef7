//! Laws of walks, as a public function that does nothing: its contract is what it is for.
ghost use Rattle.journal_walk.specs.Laws.{BeginsAlong, StaysAlong};

/// A walk has the first entries of its history at its beginning, and as it goes on.
pub fn along_law()
    ensures begins { BeginsAlong }
    ensures stays { StaysAlong }
{}
