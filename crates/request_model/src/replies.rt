//! What a request is answered: the answer itself, why it is refused, and the reply that has it.

use crate::changes::NamedChanges;
use crate::runs::Runs;
use line_text::{Boxed, Duplicate, Name, NoMemory, Text};
use metric_table::Limit;
use regression_state::State;
use report_model::{Pages, Told};
use segment_cost::Cert;
use std::alloc::Global;

/// Where a value is out of range.
#[derive(Clone, Drop)]
pub enum RangePlace {
    /// On this line of Go benchmark text, from 1.
    Line(u64),
    /// At this sample of an LNT run.
    Sample {
        /// The test's name.
        test: Text,
        /// The metric.
        metric: Text,
    },
}

/// An equal place of its own. Linear in the length of its words.
impl Duplicate for RangePlace {
    fn copy(&self, _alloc: Global) -> Result<RangePlace, NoMemory> {
        self.clone()
    }
}

/// Why a request is refused, in the order of the refusals' numbers.
#[derive(Clone, Drop)]
pub enum Refusal {
    /// The line has no form of a request.
    BadRequest,
    /// A word that must be a name is none.
    BadName,
    /// The machine isn't declared.
    UnknownMachine,
    /// The commit isn't declared.
    UnknownCommit,
    /// The number or the name is declared in this other pair.
    CommitTaken {
        /// The pair's number.
        number: u64,
        /// The pair's name.
        name: Name,
    },
    /// The body is UTF-8 text up to this place alone.
    NotText(u64),
    /// Some JSON text begins with the body's bytes before this place, and none goes on as the body does.
    NotJson(u64),
    /// The body is no LNT run.
    NotReport {
        /// The first rule that is broken.
        rule: u8,
        /// The path of the member where it is.
        member: Text,
    },
    /// A value of the body is out of range.
    OutOfRange(RangePlace),
    /// The run was accepted at this step with another commit or other samples.
    IdentityClash(u64),
    /// The run was never accepted.
    UnknownRun,
    /// The run was retracted at this step.
    AlreadyRetracted(u64),
    /// No accepted run had a sample of the series.
    UnknownSeries,
    /// No segmentation of the series was published.
    NothingPublished,
    /// The last publication has only so many changes, and none of that number.
    NoSuchChange(u64),
    /// No regression has that number.
    UnknownRegression,
    /// A regression in that state can't move to the other.
    IllegalMove {
        /// The state that it is in.
        from: State,
        /// The state that was asked for.
        to: State,
    },
    /// No job has that number.
    UnknownJob,
    /// The job is open and asks this other commit.
    NotAsked(Name),
    /// The number of the good commit isn't below that of the bad one.
    BadRange,
    /// A limit would be passed.
    Full(Limit),
    /// The penalty, or the factor that it is made by, is out of range.
    BadPenalty,
    /// The series has so few positions that no noise can be told.
    TooFewPoints(u64),
    /// This later version of the series was published meanwhile.
    Stale(u64),
    /// The job is closed, and stands so.
    JobClosed(Told),
    /// The body is longer than a body may be.
    BodyTooLong,
    /// Machines are declared by a script that runs alone.
    OnlyAlone,
    /// The byte of the body at this place opens a level too many.
    TooDeep(u64),
    /// The job is open, and asks this commit.
    JobOpen(Name),
    /// The least length of a segment isn't from 1 to 64.
    BadLength,
}

/// An equal refusal of its own. Linear in the length of its words; constant time where it has none.
impl Duplicate for Refusal {
    fn copy(&self, _alloc: Global) -> Result<Refusal, NoMemory> {
        self.clone()
    }
}

/// What a request is answered.
#[derive(Clone, Drop)]
pub enum Answer {
    /// The machine is declared.
    Machine {
        /// The machine.
        machine: Name,
    },
    /// The commit is declared.
    Commit {
        /// The commit's number.
        number: u64,
        /// The commit's name.
        name: Name,
    },
    /// The commit or the run was there.
    Duplicate {
        /// The step of its entry.
        step: u64,
    },
    /// The run was accepted.
    Accepted {
        /// The run.
        run: Name,
        /// How many samples it has.
        samples: u64,
        /// How many lines or members of its body were ignored and counted.
        ignored: u64,
    },
    /// The run was retracted.
    Retracted {
        /// The run.
        run: Name,
    },
    /// The penalty and the least length were set.
    Tuned {
        /// The metric.
        metric: Name,
        /// The penalty, in squared units of the metric's last decimal.
        penalty: i128,
        /// The least length of a segment.
        length: u8,
    },
    /// The series was segmented, and what was found was published.
    Segmented {
        /// How many entries of the history it was made from.
        version: u64,
        /// The version of the publication whose table it began with, or 0.
        base: u64,
        /// How many positions the series has.
        points: u64,
        /// How many cuts were found.
        cuts: u64,
        /// How many positions were looked at anew.
        redone: u64,
        /// The costs of the segments and the penalties of the cuts.
        total: i128,
    },
    /// The changes of the series' last publication.
    Changes {
        /// How many entries of the history it was made from.
        version: u64,
        /// The metric, which tells how the centres are written.
        metric: Name,
        /// One change for each cut, in order.
        items: NamedChanges,
    },
    /// The certificate of the series' last publication.
    Verified {
        /// How many entries of the history it was made from.
        version: u64,
        /// The cuts, with the tables that show them to be the best.
        cert: Boxed<Cert>,
    },
    /// The change was raised.
    Raised {
        /// The regression's number.
        regression: u64,
    },
    /// The regression moved.
    Moved {
        /// The regression's number.
        regression: u64,
        /// The state that it was in.
        from: State,
        /// The state that it is in.
        to: State,
    },
    /// Where a job stands.
    Job {
        /// The job's number.
        job: u64,
        /// One less than the number of its commits.
        range: u64,
        /// How many answers were good or bad.
        questions: u64,
        /// What it asks, or how it ended.
        outcome: Told,
    },
    /// The runs of the machine.
    Runs {
        /// All of them, in order of acceptance.
        runs: Runs,
    },
    /// The report on the machine.
    Report {
        /// What it says.
        pages: Boxed<Pages>,
    },
    /// The request was refused.
    Refused(Refusal),
}

/// An equal answer of its own. Linear in the length of its lists.
impl Duplicate for Answer {
    fn copy(&self, _alloc: Global) -> Result<Answer, NoMemory> {
        self.clone()
    }
}

/// An answer, with the number of entries of the machine's history behind the request.
#[derive(Clone, Drop)]
pub struct Reply {
    /// The number of entries; 0 where the answer names no machine.
    pub step: u64,
    /// The answer.
    pub answer: Answer,
}

/// An equal reply of its own. Takes the time of [`Answer::copy`].
impl Duplicate for Reply {
    fn copy(&self, _alloc: Global) -> Result<Reply, NoMemory> {
        self.clone()
    }
}
