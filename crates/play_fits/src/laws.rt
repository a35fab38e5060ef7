//! Laws of the definitions, as public functions that do nothing: their contracts are what they are for.
ghost use Rattle.play_fits.specs.{Ends.EndsFit, Laws.{AnswersArePart, PartsWait}, Whole.{JoinsKeep, SeenPartsFit, AllAreByCrew, PartsStay}};

/// What a script's pass has seen of its requests and replies is the script's part in what it has seen; and where all passes
/// were joined into the first one, and this is whole, it is the script's part in the journals, in which there is nothing
/// but what was kept and what the passes made. Entries of others that come behind leave it as it is. So the run fits its
/// journals.
pub fn parts_law()
    ensures part { AnswersArePart }
    ensures waits { PartsWait }
    ensures joins { JoinsKeep }
    ensures fits { SeenPartsFit }
    ensures crew { AllAreByCrew }
    ensures stay { PartsStay }
    ensures ends { EndsFit }
{}
