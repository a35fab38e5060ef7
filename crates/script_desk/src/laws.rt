//! Laws of the definitions, as public functions that do nothing: their contracts are what they are for.
ghost use Rattle.script_desk.specs.Growth.{SessionsStay, SessionsGoOn};

/// A session leaves the machines that it began with in their order, each with entries of its own author more, and new ones
/// behind them; they stay different and few.
pub fn machines_law()
    ensures { SessionsStay }
{}

/// Kept machines go on from what they were, where a session leaves them: new entries come behind, and new machines last.
pub fn goes_on_law()
    ensures { SessionsGoOn }
{}
