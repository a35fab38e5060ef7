//! How an answer moves a bisection on.
ghost use Rattle.std.specs.Prelude.{◌≡◌, ◌+◌, ◌<◌, ◌^◌};
ghost use Rattle.bisect_core.specs.{Bisections.between, Verdicts.{verdict_of, after_status, after_giving_up}};

use crate::outcome::Outcome;

/// What a status says of its place.
#[derive(Clone, Copy)]
pub(crate) enum Verdict {
    Good,
    Bad,
    Untestable,
}

/// Where a bisection stands, but for its list.
#[derive(Clone, Copy)]
pub(crate) struct Progress {
    pub range: u64,
    pub low: u64,
    pub high: u64,
    pub questions: u64,
    pub outcome: Outcome,
    pub low_commit: u64,
    pub high_commit: u64,
    pub end_commit: Option<u64>,
}

/// What the status of a test says.
fn read_verdict(status: u8) -> Verdict
    ensures { result ≡ verdict_of status }
{
    if status == 0 {
        Verdict::Good
    } else if status == 125 || status >= 128 {
        Verdict::Untestable
    } else {
        Verdict::Bad
    }
}

/// What stands between two ends.
pub(crate) fn outcome_between(low: u64, high: u64) -> Outcome
    requires { low < high }
    ensures { result ≡ between low high }
{
    if high - low == 1 {
        Outcome::Found { lo: low, hi: high }
    } else {
        Outcome::Asks(low + (high - low) / 2)
    }
}

impl Progress {
    /// After the status of the test of a place between the ends, which has this commit.
    pub fn after_status(self, place: u64, status: u8, commit: u64) -> Progress
        requires above { self.low < place }
        requires below { place < self.high }
        requires more { self.questions + 1 < 2 ^ 64 }
        ensures { result ≡ after_status self place status commit }
    {
        match read_verdict(status) {
            Verdict::Good => Progress {
                low: place,
                low_commit: commit,
                questions: self.questions + 1,
                outcome: outcome_between(place, self.high),
                ..self
            },
            Verdict::Bad => Progress {
                high: place,
                high_commit: commit,
                questions: self.questions + 1,
                outcome: outcome_between(self.low, place),
                ..self
            },
            Verdict::Untestable => Progress {
                outcome: Outcome::Undecided { place, status },
                end_commit: Some(commit),
                ..self
            },
        }
    }

    /// After no test of the place could be had.
    pub fn after_giving_up(self, place: u64, commit: u64) -> Progress
        ensures { result ≡ after_giving_up self place commit }
    {
        Progress {
            outcome: Outcome::Faulted { place },
            end_commit: Some(commit),
            ..self
        }
    }
}
