//! Laws of the definitions, as public functions that do nothing: their contracts are what they are for.
ghost use Rattle.store_rows.specs.Laws.{HasOneOutcome};
ghost use Rattle.keep_rows.specs.{Laws.{KeptComesBack, LoadedAreKept, KeptIsLegal}, Loading.Makes};

use crate::states::States;
use store_rows::loading_law;
use track_entry::{entries_law, entries_v1_law};

/// Rows lead to one list of machines and one version at most, or one of them is the first bad one.
pub fn rows_law()
    ensures { HasOneOutcome Makes }
{
    entries_law();
    entries_v1_law();
    store_rows::rows_law();
    loading_law::<States>();
}

/// What was kept comes back: the rows before, and the new rows of machines that went on from what those led to, lead to each
/// of these machines as it is kept.
pub fn comes_back_law()
    ensures back { KeptComesBack }
    ensures loaded { LoadedAreKept }
{}

/// A history without its publications is legal where the history is.
pub fn kept_law()
    ensures { KeptIsLegal }
{}
