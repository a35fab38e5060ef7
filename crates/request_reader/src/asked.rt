//! What comes next in a script.
use request_model::{Refusal, Request};

/// What comes next in a script.
#[derive(Drop)]
pub enum Asked {
    /// A request.
    Request(Request),
    /// A request line that is refused as it is read.
    Refused(Refusal),
    /// The end of the script.
    End,
}
