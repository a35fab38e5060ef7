//! Laws of the definitions, as public functions that do nothing: their contracts are what they are for.
ghost use Rattle.worker_crew.specs.{Laws.{RunOfPlayersFits, RunOfPlayersIsQuiet}, Seated.{BisectorsSit, JoinsGoOn, RecomputersSit, SeatsShare, SplitsGoOn}, Whole.CrewRuns};

use history_model::{growth_law, publication_law, setting_law};
use touch_model::touch_law;
use track_outside::Runner;

/// A whole shared run fits the journals of its machines, and where main finishes what is left, they are quiet.
pub fn run_law()
    ensures fits { RunOfPlayersFits }
    ensures quiet { RunOfPlayersIsQuiet }
{
    growth_law();
    publication_law();
    setting_law();
    touch_law();
}

/// Workers that were run worked at seats of their room, each with its runner; passes are split off, and joined, some after
/// others; the seats of scripts and workers share the room; and with what main does at last that is a run of players.
pub fn crew_law<A: Runner>()
    ensures recompute { RecomputersSit }
    ensures bisect { BisectorsSit A.Runner }
    ensures splits { SplitsGoOn }
    ensures joins { JoinsGoOn }
    ensures share { SeatsShare }
    ensures runs { CrewRuns A.Runner }
{}
