//! A law of the definitions, as a public function that does nothing: its contract is what it is for.
ghost use Rattle.audit_model.specs.Fitting.{ShownFits};

/// Files that fit together show all that files show of a run that fits its journals.
pub fn fits_law()
    ensures { ShownFits }
{}
