//! When the replies that are gathered are handed out.
ghost use Rattle.std.specs.Prelude.{◌≡◌, Bool, true, false};

/// When the replies that are gathered are handed out.
pub trait Pace {
    /// Each reply is handed out before the next request is read.
    ghost each: { Bool };

    /// Whether they are to be handed out now: where no whole line is held of what was read, and where they are many, they
    /// are.
    fn is_due(&self, holds_line: bool, are_many: bool) -> bool
        ensures starved { holds_line ≡ false → result ≡ true }
        ensures many { are_many ≡ true → result ≡ true }
        ensures each { each ≡ true → result ≡ true };

    /// What is done each time that some were handed out.
    fn handed_out(&self);
}

/// Replies are handed out together, where waiting is of no use.
pub struct Together;

impl Pace for Together {
    ghost each = { false };

    fn is_due(&self, holds_line: bool, are_many: bool) -> bool {
        !holds_line || are_many
    }

    fn handed_out(&self) {}
}
