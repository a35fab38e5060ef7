//! Laws of the script of a number, as public functions that do nothing: their contracts are what they are for.
ghost use Rattle.trial_script.specs.{Laws.{ScriptAsks, ScriptIsWhole}, Accepted.{EachIsAccepted, NoneIsRefused}};

use history_model::{
    accept_law, growth_law, limits_law, positions_law, publication_law, setting_law, within_law,
};
use line_text::{lines_law, names_law, numbers_law, words_law};
use script_session::output_law;
use track_model::{commit_law, publish_law, retract_law, tune_law};

/// The script of each number asks its requests, each read without a refusal, and ends well; and so does every reading of it.
pub fn script_law()
    ensures asks { ScriptAsks }
    ensures whole { ScriptIsWhole }
{
    names_law();
    numbers_law();
    words_law();
    lines_law();
    output_law();
}

/// A session without machines that is asked the requests of a number refuses none of them; so no reply in its output of the
/// script of a number is a refusal. Does nothing: its contract is what it is for.
pub fn accepted_law()
    ensures requests { EachIsAccepted }
    ensures output { NoneIsRefused }
{
    script_law();
    growth_law();
    positions_law();
    limits_law();
    accept_law();
    within_law();
    publication_law();
    commit_law();
    retract_law();
    tune_law();
    setting_law();
    publish_law();
}
