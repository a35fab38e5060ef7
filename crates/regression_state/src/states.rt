//! The states, and the moves between them.
ghost use Rattle.std.specs.Prelude.{◌≡◌, ◌≢◌, ◌↔◌, IsTrue, IfSome, IfNone};
ghost use Rattle.regression_state.specs.Moves.{is_move, word};

/// What became of a regression.
#[derive(Clone, Copy, Debug, PartialEq, Eq)]
pub enum State {
    /// A change was raised as a regression.
    Detected,
    /// Somebody put it aside, to be looked at.
    Staged,
    /// It is being worked on.
    Active,
    /// It is real, and stays.
    NotToBeFixed,
    /// It is none.
    Ignored,
    /// A fix is there, to be verified.
    Verify,
    /// It is fixed.
    Fixed,
}

/// A move that the table doesn't have.
#[derive(Clone, Copy, Debug, PartialEq, Eq)]
pub struct IllegalMove {
    /// The state that it would have left.
    pub from: State,
    /// The state that it would have come to.
    pub to: State,
}

/// Whether a regression may move from one state to another. No state moves to itself. O(1); takes no memory.
pub fn may_move(from: State, to: State) -> bool
    ensures { result ≡ is_move from to }
{
    match from {
        State::Detected => matches!(to, State::Staged | State::Active | State::Ignored),
        State::Staged => matches!(
            to,
            State::Detected | State::Active | State::NotToBeFixed | State::Ignored
        ),
        State::Active => matches!(to, State::NotToBeFixed | State::Ignored | State::Verify),
        State::NotToBeFixed | State::Fixed => matches!(to, State::Active),
        State::Ignored => matches!(to, State::Detected | State::Active),
        State::Verify => matches!(to, State::Active | State::Fixed),
    }
}

/// The state whose word these bytes are; none where they are no state's word. O(length); takes no memory.
pub fn read_state(bytes: &[u8]) -> Option<State>
    ensures read { IfSome result (λ state. bytes.now ≡ word state) }
    ensures none { IfNone result ((state : State) → bytes.now ≢ word state) }
    ensures back { (state : State) → bytes.now ≡ word state → result ≡ Some state }
{
    if is_same(bytes, b"detected") {
        Some(State::Detected)
    } else if is_same(bytes, b"staged") {
        Some(State::Staged)
    } else if is_same(bytes, b"active") {
        Some(State::Active)
    } else if is_same(bytes, b"not_to_be_fixed") {
        Some(State::NotToBeFixed)
    } else if is_same(bytes, b"ignored") {
        Some(State::Ignored)
    } else if is_same(bytes, b"verify") {
        Some(State::Verify)
    } else if is_same(bytes, b"fixed") {
        Some(State::Fixed)
    } else {
        None
    }
}

fn is_same(bytes: &[u8], word: &[u8]) -> bool
    ensures { IsTrue result ↔ (bytes.now ≡ word.now) }
{
    bytes == word
}

impl State {
    ghost use Rattle.std.specs.Prelude.{◌≡◌, ◌↔◌, false, IsErr, IfErr, OnOk, OnErr};
    ghost use Rattle.regression_state.specs.Moves.{is_move, word};

    /// Moves to another state. Where the table doesn't have the move it is refused, and the state stays. O(1); takes no
    /// memory.
    pub fn move_to(&mut self, to: State) -> Result<(), IllegalMove>
        ensures moved { OnOk result (self.new ≡ to) }
        ensures refused { IsErr result ↔ (is_move self.old to ≡ false) }
        ensures told { IfErr result (λ refusal. refusal ≡ record { from = self.old; to = to }) }
        ensures kept { OnErr result (self.new ≡ self.old) }
    {
        let from = *self;
        if !may_move(from, to) {
            return Err(IllegalMove { from, to });
        }
        *self = to;
        Ok(())
    }

    /// The word of the state. O(1); takes no memory.
    pub fn word(&self) -> &'static str
        ensures { result.now ≡ word self.now }
    {
        match self {
            State::Detected => "detected",
            State::Staged => "staged",
            State::Active => "active",
            State::NotToBeFixed => "not_to_be_fixed",
            State::Ignored => "ignored",
            State::Verify => "verify",
            State::Fixed => "fixed",
        }
    }
}
