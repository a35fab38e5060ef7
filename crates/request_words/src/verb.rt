//! The first words of request lines.
ghost use Rattle.std.specs.Prelude.{◌≡◌, ◌≢◌, IfSome, IfNone};
ghost use Rattle.request_words.specs.Verbs.{word_of};

/// What is asked of a series by its names alone: a machine, a test and a metric.
#[derive(Clone, Copy)]
pub enum SeriesVerb {
    /// Its segmentation.
    Segment,
    /// Its changes.
    Changes,
    /// The certificate of its segmentation.
    Verify,
}

/// What is asked of a series by its names and a number.
#[derive(Clone, Copy)]
pub enum NumberVerb {
    /// The penalty of its metric is made of its noise, by a factor.
    Calibrate,
    /// One of its changes is raised.
    Regress,
}

/// What is asked of a bisection by its number alone.
#[derive(Clone, Copy)]
pub enum JobVerb {
    /// To go on with it.
    Resume,
    /// To show it.
    Job,
}

// What is asked of a machine by its name alone: to be there, or its runs.
#[derive(Clone, Copy)]
pub(crate) enum MachineVerb {
    Machine,
    Runs,
}

// The first word of a request line.
#[derive(Clone, Copy)]
pub(crate) enum Verb {
    Machine,
    Commit,
    Submit,
    Retract,
    Tune,
    Number(NumberVerb),
    Series(SeriesVerb),
    State,
    Bisect,
    Answer,
    Job(JobVerb),
    Runs,
    Report,
}

// The verb that a word is: first those that most lines begin with.
pub(crate) fn read_verb(word: &[u8]) -> Option<Verb>
    ensures some { IfSome result (λ verb. word.now ≡ word_of verb) }
    ensures none { IfNone result ((verb : Verb) → word.now ≢ word_of verb) }
{
    let verb = match word {
        b"submit" => Verb::Submit,
        b"commit" => Verb::Commit,
        b"machine" => Verb::Machine,
        b"retract" => Verb::Retract,
        b"tune" => Verb::Tune,
        b"calibrate" => Verb::Number(NumberVerb::Calibrate),
        b"runs" => Verb::Runs,
        b"report" => Verb::Report,
        b"regress" => Verb::Number(NumberVerb::Regress),
        b"state" => Verb::State,
        b"bisect" => Verb::Bisect,
        b"answer" => Verb::Answer,
        b"segment" => Verb::Series(SeriesVerb::Segment),
        b"changes" => Verb::Series(SeriesVerb::Changes),
        b"verify" => Verb::Series(SeriesVerb::Verify),
        b"resume" => Verb::Job(JobVerb::Resume),
        b"job" => Verb::Job(JobVerb::Job),
        _ => return None,
    };
    Some(verb)
}
