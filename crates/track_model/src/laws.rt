//! Laws of the forms, as public functions that do nothing: their contracts are what they are for.
ghost use Rattle.track_model.specs.Laws.{
  CommitsAreFull,
  CommitStepsAreFull,
  CommitIsAdded,
  CommitIsAllowed,
  RetractStepsAreFull,
  RetractIsAdded,
  RetractIsAllowed,
  TuneStepsAreFull,
  TuneIsAdded,
  TuneMayFollow,
  PublishStepsAreFull,
  PublishCutsAreFull,
  PublishIsAdded,
  PublishIsAllowed,
  StepsAreFull,
  StepIsAdded,
  MoveIsAllowed,
  RaiseIsAllowed,
  JobsAreFull,
  BeginStepsAreFull,
  BeginIsAdded,
  BeginIsAllowed,
  SayIsAllowed,
  GiveUpIsAllowed,
  OneOutcome,
};

use change_list::one_certificate_law;
use history_model::{
    growth_law, jobs_law, limits_law, publication_law, regressions_law, within_law,
};
use segment_model::centre_law;
use series_noise::noise_law;

/// Where a commit of a free pair comes to a limit, and that it is added elsewhere.
pub fn commit_law()
    ensures commits_full { CommitsAreFull }
    ensures steps_full { CommitStepsAreFull }
    ensures added { CommitIsAdded }
    ensures allowed { CommitIsAllowed }
{
    growth_law();
    limits_law();
    within_law();
}

/// Where the retraction of a live run comes to a limit, and that it is added elsewhere.
pub fn retract_law()
    ensures steps_full { RetractStepsAreFull }
    ensures added { RetractIsAdded }
    ensures allowed { RetractIsAllowed }
{
    limits_law();
    within_law();
}

/// Where a penalty comes to a limit, that it is set elsewhere, and where it is in range.
pub fn tune_law()
    ensures steps_full { TuneStepsAreFull }
    ensures added { TuneIsAdded }
    ensures follows { TuneMayFollow }
{
    within_law();
}

/// Where a publication comes to a limit, and that it is added elsewhere.
pub fn publish_law()
    ensures steps_full { PublishStepsAreFull }
    ensures cuts_full { PublishCutsAreFull }
    ensures added { PublishIsAdded }
    ensures allowed { PublishIsAllowed }
{
    limits_law();
    within_law();
    publication_law();
}

/// Where an entry that is limited by steps alone comes to the limit, and that it is added elsewhere.
pub fn steps_law()
    ensures full { StepsAreFull }
    ensures added { StepIsAdded }
{
    within_law();
}

/// A regression may move where nothing is refused of the move, and a change of the last publication may be raised.
pub fn follow_law()
    ensures moves { MoveIsAllowed }
    ensures raises { RaiseIsAllowed }
{
    publication_law();
    regressions_law();
}

/// Where a job that is begun comes to a limit, that it is begun elsewhere, and that it may follow there.
pub fn begin_law()
    ensures jobs_full { JobsAreFull }
    ensures steps_full { BeginStepsAreFull }
    ensures added { BeginIsAdded }
    ensures allowed { BeginIsAllowed }
{
    within_law();
    jobs_law();
}

/// What may be said of the place that a job asks: the status of its test, or that it is given up.
pub fn say_law()
    ensures tested { SayIsAllowed }
    ensures given_up { GiveUpIsAllowed }
{
    jobs_law();
}

/// A request comes to one outcome on a history.
pub fn outcome_law()
    ensures { OneOutcome }
{
    one_certificate_law();
    centre_law();
    noise_law();
}
