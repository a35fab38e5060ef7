//! Laws of histories, as public functions that do nothing: their contracts are what they are for.
ghost use Rattle.history_model.specs.Laws.{
  DeclarationsGrow,
  AcceptancesGrow,
  RetractionsGrow,
  LegalGrows,
  PositionsTakeIn,
  PositionsGiveBack,
  PositionsAfterAccept,
  PositionsAfterRetract,
  PositionsUntouched,
  PositionsAreFresh,
  StepsArePast,
  ValuesAreBrought,
  OnlyAcceptedAreRetracted,
  RunsHaveCommits,
  LimitsAfterCommit,
  LimitsAfterRetract,
  LimitsAfterTune,
  LimitsAfterPublish,
  SeriesKeepLimits,
  SeriesHaveRoom,
  SeriesAreListedOnce,
  CountsAfterAccept,
  SamplesFit,
  PositionsFit,
  FirstPassed,
  FirstKept,
  RunKeepsLimits,
  PublicationIsLast,
  PublicationStays,
  CutsGrow,
  PublicationsStand,
  LastStands,
  VersionsStay,
  KnownStays,
};
ghost use Rattle.history_model.specs.Penalties.{SettingIsSet, SettingStays};
ghost use Rattle.history_model.specs.Followed.{
  RegressionsGrow,
  StateIsMoved,
  StateStays,
  NewIsDetected,
  LimitsAfterRegression,
  CutsAreBetweenDeclared,
  RegressionsAreNamed,
  JobsStay,
  JobIsBegun,
  JobGoesOn,
  BeginOpensOne,
  LimitsAfterJob,
  LimitsAfterTurn,
  EndsAreDeclared,
  JobsAreNamed,
  NumbersRise,
  NumbersAreTwo,
  JobsFinishWell,
};

use bisect_core::{bound_law, ends_law, found_law};

/// What is read from a history grows by what is read from the entry that is added, and a legal history stays legal.
pub fn growth_law()
    ensures declarations { DeclarationsGrow }
    ensures acceptances { AcceptancesGrow }
    ensures retractions { RetractionsGrow }
    ensures legal { LegalGrows }
{}

/// Positions take samples in, and give back all samples of one step at a commit: those of a run that is accepted, and
/// those of one that is taken back.
pub fn positions_law()
    ensures take_in { PositionsTakeIn }
    ensures give_back { PositionsGiveBack }
    ensures accept { PositionsAfterAccept }
    ensures retract { PositionsAfterRetract }
    ensures untouched { PositionsUntouched }
    ensures fresh { PositionsAreFresh }
    ensures past { StepsArePast }
    ensures values { ValuesAreBrought }
{}

/// A run that was never accepted was never taken back.
pub fn retraction_law()
    ensures { OnlyAcceptedAreRetracted }
{}

/// A commit, a retraction, a setting and a publication keep the limits where there is room; and what the limits say of each series.
pub fn limits_law()
    ensures commit { LimitsAfterCommit }
    ensures retract { LimitsAfterRetract }
    ensures tune { LimitsAfterTune }
    ensures publish { LimitsAfterPublish }
    ensures series { SeriesKeepLimits }
    ensures room { SeriesHaveRoom }
{}

/// A list of series with one more names it once.
pub fn series_law()
    ensures { SeriesAreListedOnce }
{}

/// What one run more counts to, and when it stays within the limits.
pub fn accept_law()
    ensures counts { CountsAfterAccept }
    ensures samples { SamplesFit }
    ensures positions { PositionsFit }
{}

/// Which limit is told of where an entry passes one.
pub fn within_law()
    ensures passed { FirstPassed }
    ensures kept { FirstKept }
    ensures run { RunKeepsLimits }
{}

/// The commit of each accepted run is declared.
pub fn runs_law()
    ensures { RunsHaveCommits }
{}

/// A metric has the setting that was set last.
pub fn setting_law()
    ensures set { SettingIsSet }
    ensures stays { SettingStays }
{}

/// What is published of a series, and that each publication of a legal history stands: the version that it speaks of stays.
pub fn publication_law()
    ensures last { PublicationIsLast }
    ensures stays { PublicationStays }
    ensures cuts { CutsGrow }
    ensures stand { PublicationsStand }
    ensures last_stands { LastStands }
    ensures versions { VersionsStay }
    ensures known { KnownStays }
{}

/// Which regressions there are, and the state of each: the one to which it moved last.
pub fn regressions_law()
    ensures raised { RegressionsGrow }
    ensures moved { StateIsMoved }
    ensures stays { StateStays }
    ensures new { NewIsDetected }
    ensures limits { LimitsAfterRegression }
    ensures cuts { CutsAreBetweenDeclared }
    ensures named { RegressionsAreNamed }
{}

/// Which jobs there are, where each stands and how many are open, and that the ends of each are declared.
pub fn jobs_law()
    ensures stay { JobsStay }
    ensures begun { JobIsBegun }
    ensures opens { BeginOpensOne }
    ensures go_on { JobGoesOn }
    ensures limits { LimitsAfterJob }
    ensures turn { LimitsAfterTurn }
    ensures ends { EndsAreDeclared }
    ensures named { JobsAreNamed }
{
    bound_law();
}

/// The commits of a job rise, and are two at least.
pub fn between_law()
    ensures rise { NumbersRise }
    ensures two { NumbersAreTwo }
{}

/// A bisection that found something found two neighbours, one good and one bad, within its bound of questions.
pub fn finished_law()
    ensures { JobsFinishWell }
{
    bound_law();
    ends_law();
    found_law();
}
