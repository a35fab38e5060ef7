//! The trait of gates, which running threads pass at named places.

/// Where a thread is. The number is the script's or the worker's.
#[derive(Clone, Copy, Debug, PartialEq, Eq)]
pub enum Place {
    /// A script's reply was written.
    Replied(u8),
    /// A worker has taken a series.
    SeriesTaken(u8),
    /// A worker is done with a series.
    SeriesDone(u8),
    /// A worker has taken a question.
    QuestionTaken(u8),
    /// A worker's runner has answered or failed.
    AnswerReady(u8),
}

/// Something that running threads pass. It may keep a thread for a while, and changes nothing.
pub trait Gate: Sync {
    fn pass(&self, place: Place);
}

/// A gate that keeps nobody.
#[derive(Clone, Copy, Debug, Drop)]
pub struct OpenGate;

impl Gate for OpenGate {
    fn pass(&self, _place: Place) {}
}
