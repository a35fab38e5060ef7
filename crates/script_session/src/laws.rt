//! Laws of the definitions, as public functions that do nothing: their contracts are what they are for.
ghost use Rattle.script_desk.specs.Sessions.{AnswersFor, AnswersSome};
ghost use Rattle.script_session.specs.Counts.{SessionsCount, TrialsCount};
ghost use Rattle.script_session.specs.Laws.{AnswersOnce, OutputsExist, OutputsOnce, OneScript, ScriptsOnce, BeginsOutput, OpenIsFirst};
ghost use Rattle.script_session.specs.Part.{OneReplyEach, TellsPart, TellsNoMore, OutputsAreParts, PartsAreOfOutputs, PartOfEach};

use request_reader::reading_law;
use track_model::outcome_law;

/// A request has one answer and items have one output, which exists where their outcomes are computed; a script has one
/// output and one ending, and what answers its first requests, or those before a fault of the input, begins that output.
pub fn output_law()
    ensures answer { AnswersOnce AnswersFor }
    ensures some { OutputsExist AnswersFor }
    ensures output { OutputsOnce AnswersFor }
    ensures reading { OneScript }
    ensures script { ScriptsOnce AnswersFor }
    ensures begins { BeginsOutput AnswersFor }
    ensures open { OpenIsFirst }
{
    outcome_law();
    reading_law();
}

/// Where the replies about segmentations alone are told, a request still has one answer and a script one output, and what
/// is told of its first requests begins that output.
pub fn trial_law()
    ensures answer { AnswersOnce AnswersSome }
    ensures script { ScriptsOnce AnswersSome }
    ensures begins { BeginsOutput AnswersSome }
{
    outcome_law();
    reading_law();
}

/// A session that tells the replies about segmentations alone makes the same of the machines as one that tells each reply,
/// and tells exactly the part of those replies: that of each request for a segmentation or for changes, and of each item
/// that could not be read. So its output of a script is the part of whatever the script is answered. Does nothing: its
/// contract is what it is for.
pub fn part_law()
    ensures each { OneReplyEach }
    ensures tells { TellsPart }
    ensures no_more { TellsNoMore }
    ensures outputs { OutputsAreParts }
    ensures whole { PartsAreOfOutputs }
    ensures part { PartOfEach }
{
    output_law();
}

/// A session whose steps are counted answers as ever, and so does one that tells the replies about segmentations alone; the
/// steps rise by exactly the positions that the answers to segmentations say were looked at anew, where none of these was
/// refused a limit. Does nothing: its contract is what it is for.
pub fn count_law()
    ensures session { SessionsCount }
    ensures trial { TrialsCount }
{}
