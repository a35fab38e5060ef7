//! The states of a regression.
use regression_state::State;

/// All of them, in the order in which the documents list them.
pub const STATES: [State; 7] = [
    State::Detected,
    State::Staged,
    State::Active,
    State::NotToBeFixed,
    State::Ignored,
    State::Verify,
    State::Fixed,
];
