//! The limits: what may be there only so often, its number and its word.
ghost use Rattle.std.specs.Prelude.{◌≡◌};

/// What may be there only so often. A thing that would pass its limit is refused.
#[derive(Clone, Copy, Debug, PartialEq, Eq)]
pub enum Limit {
    /// Machines of a session.
    Machines,
    /// Commits of a machine.
    Commits,
    /// Runs of a machine, retracted ones too.
    Runs,
    /// Samples of a run.
    RunSamples,
    /// Samples of a machine, those of retracted runs too.
    Samples,
    /// Series of a machine, those of retracted runs too.
    Series,
    /// Live samples of a series.
    SeriesSamples,
    /// Positions of a series: the commits at which it has a live sample.
    Positions,
    /// Entries of a machine's history in a session.
    Steps,
    /// Cuts in all publications of a machine in a session.
    Cuts,
    /// Open bisections of a machine.
    Jobs,
}

impl Limit {
    ghost use Rattle.metric_table.specs.Limits.{most, word};

    /// The most that there may be of it. The rule is the table of limits in docs/FORMATS.md. O(1); takes no memory.
    pub fn most(self) -> u64
        ensures { result ≡ most self }
    {
        match self {
            Limit::Machines => 16,
            Limit::Jobs => 256,
            Limit::Series | Limit::Positions => 16_384,
            Limit::Commits | Limit::Runs | Limit::RunSamples | Limit::SeriesSamples => 65_536,
            Limit::Samples => 524_288,
            Limit::Steps => 1_048_576,
            Limit::Cuts => 16_777_216,
        }
    }

    /// The word that a reply names it by. O(1); takes no memory.
    pub fn word(self) -> &'static str
        ensures { result.now ≡ word self }
    {
        match self {
            Limit::Machines => "machines",
            Limit::Commits => "commits",
            Limit::Runs => "runs",
            Limit::RunSamples => "run_samples",
            Limit::Samples => "samples",
            Limit::Series => "series",
            Limit::SeriesSamples => "series_samples",
            Limit::Positions => "positions",
            Limit::Steps => "steps",
            Limit::Cuts => "cuts",
            Limit::Jobs => "jobs",
        }
    }
}
