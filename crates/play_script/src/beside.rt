//! What answers the requests of a script beside others.
ghost use Rattle.play_script.specs.Posts.{Post, AnswersAtPost, FailsAtPost};

use script_loop::Desk;

/// A desk whose requests are asked beside those of others: each is answered by what its pass of the machines' locks has seen.
pub trait Beside: Desk {
    /// Whose requests they are, of which machines, and what was seen of these.
    ghost post: { Self → Post };

    /// Each request is asked, and its reply told.
    ghost asking: { AnswersAtPost post Self.answers };

    /// Where memory is wanting nothing is added.
    ghost wanting: { FailsAtPost post Self.fails };
}
