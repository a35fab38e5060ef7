//! The answers of an acceptance and of a retraction.
use metric_table::Limit;

/// What the acceptance of a run comes to.
#[derive(Clone, Copy, Debug, PartialEq, Eq)]
pub enum Accepted {
    /// No run of that name was accepted before.
    New,
    /// The run was accepted at this step, with this commit and these samples.
    Duplicate(u64),
    /// A run of that name was accepted at this step, with another commit or other samples.
    Clash(u64),
    /// There would be more than there may be of this.
    Full(Limit),
}

/// What the retraction of a run comes to.
#[derive(Clone, Copy, Debug, PartialEq, Eq)]
pub enum Retracted {
    /// The run was live.
    Done,
    /// No run of that name was accepted.
    UnknownRun,
    /// The run was taken back at this step.
    AlreadyRetracted(u64),
}
