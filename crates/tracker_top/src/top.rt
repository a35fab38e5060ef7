//! The commands that run no threads and open no file.
ghost use Rattle.std.specs.Prelude.{◌≡◌, ◌≢◌, ℕ, ◌⊎◌, List, [], IfOk, IfSome, Result, Some};
ghost use Rattle.track_outside.specs.Counts.{Rose};
ghost use Rattle.trial_script.specs.Sessions.{State};
ghost use Rattle.script_loop.specs.declared.stop.Stop.{Stop};
ghost use Rattle.command_words.specs.{declared.command.Command.Command, declared.command.Command.TheVariants.{Cut, Path}, Commands.{IsSpelled, IsInRange, AreNoCommand}, Texts.texts};
ghost use Rattle.tracker_top.specs.{Paths.EndsPath, Statuses.{script_status, AsksAudit, AsksHunt, AsksPlay, IsDue, OneStatusIsDue}, Answers.{IsCertificateText, IsTextOf, StandsBy, state_of, AllBisectWell}, Endings.{EndsInput, EndsOutput, AnswersScript, EndsApply, EndsWell, RefusesNone, IsOfOutput, RunsScript, IsPlain, Ends, EndsUnbegun, IsTold, streams}};
ghost use Rattle.series_gen.specs.Script.{script as script_of};

use crate::printing::put_status;
use crate::status::Status;
use absolute_cut::segmentation as segmentation_by_distances;
use command_words::{Command, CutPlan, PathPlan, Word, command_of, one_command_law};
use cost_certificate::put_cert;
use cut_lines::{one_stop_law, read_points};
use history_model::{Author, finished_law, publication_law};
use keep_rows::{Loaded, append_all, load, rows_law};
use machine_state::MachineState;
use path_command::path_points;
use pelt_core::{Steps, segmentation};
use segment_cost::{Cert, Points};
use series_gen::put_script;
use std::alloc::Global;
use std::mem::forget;
use std::sync::ledger::Ledger;
use track_outside::{Keeper, NoMemory, Sink, Source, SureSource, put_all};
use trial_script::{
    Session, Stop, Trial, accepted_law, answer_counted, count_law, output_law, part_law, script_law,
};

/// No words, rows of a store and bytes of an input have two statuses, but for those that the outside or the memory give.
/// Does nothing: its contract is what it is for.
pub fn one_status_law()
    ensures { OneStatusIsDue }
{
    one_command_law();
    one_stop_law();
    output_law();
    rows_law();
}

/// Runs the command that the words are, which runs no threads and opens no file, and answers how it ends.
pub(crate) fn run_streams<I: Source, O: Sink, K: Keeper, L: Ledger>(
    alloc: Global,
    words: &[String],
    input: &mut I,
    out: &mut O,
    err: &mut O,
    keeper: &mut K,
    steps: &mut Steps<L>,
) -> Status
    requires play { ¬ AsksPlay (texts words.now) }
    requires hunt { ¬ AsksHunt (texts words.now) }
    requires audit { ¬ AsksAudit (texts words.now) }

    // Bad words are no command, and then nothing is read, written, kept or counted but the status' line.
    ensures bad_words { result ≡ Status.BadWords → AreNoCommand (texts words.now) }
    ensures untouched { result ≡ Status.BadWords
        → streams input.new out.new keeper.new steps.new
        ≡ streams input.old out.old keeper.old steps.old }

    // Else memory was wanting to read them, or they are a command, which ends so on the input, the output, the keeper and
    // the steps, as `Ends` says of each.
    ensures command { result ≢ Status.BadWords
        → EndsUnbegun (streams input.old out.old keeper.old steps.old)
        (streams input.new out.new keeper.new steps.new) result
        ⊎ ((command : Command) × IsSpelled (texts words.now) command
        × Ends I.Source O.Sink K.Keeper (streams input.old out.old keeper.old steps.old)
        (streams input.new out.new keeper.new steps.new) command result) }

    // What is due comes, unless an object fails or memory is wanting. So good words, rows and input are Done.
    ensures complete { IfSome (I.left input.old) (λ bytes. (status : Status)
        → IsDue (texts words.now) (K.kept keeper.old) bytes status
        → (result ≡ status) ⊎ (result ≡ Status.NoMemory)
        ⊎ Rose (I.faults input.old) (I.faults input.new)
        ⊎ Rose (O.faults out.old) (O.faults out.new)
        ⊎ Rose (K.faults keeper.old) (K.faults keeper.new)) }

    // The status is told.
    ensures told { IsTold O.Sink err.old err.new result }
{
    one_status_law();
    one_command_law();
    let Ok(told) = command_of(alloc, words) else {
        let _ = put_status(err, Status::NoMemory);
        return Status::NoMemory;
    };
    let Some(command) = told else {
        let _ = put_status(err, Status::BadWords);
        return Status::BadWords;
    };
    let status = run_command(alloc, &command, input, out, keeper, steps);
    // A status stands also where it can't be told.
    let _ = put_status(err, status);
    status
}

// Runs the command, and leaves the telling of its status to the caller.
fn run_command<I: Source, O: Sink, K: Keeper, L: Ledger>(
    alloc: Global,
    command: &Command<'_>,
    input: &mut I,
    out: &mut O,
    keeper: &mut K,
    steps: &mut Steps<L>,
) -> Status
    requires range { IsInRange command.now }
    requires plain { IsPlain command.now }
    ensures { Ends I.Source O.Sink K.Keeper (streams input.old out.old keeper.old steps.old)
        (streams input.new out.new keeper.new steps.new) command.now result }
{
    match command {
        Command::Cut(plan) => cut(alloc, plan, input, out),
        Command::Apply(store) => apply_on(alloc, store, input, out, keeper, steps),
        Command::Gen(number) => generate(alloc, *number, out),
        Command::Trial(number) => run_trial(alloc, *number, out, steps),
        Command::Path(plan) => path(alloc, plan, input, out),
        Command::Play(_) => unreachable!(),
        Command::Hunt(_) => unreachable!(),
        Command::Audit(_) => unreachable!(),
    }
}

// Reads the lines, and prints the certificate of their points.
fn cut<I: Source, O: Sink>(alloc: Global, plan: &CutPlan, input: &mut I, out: &mut O) -> Status
    requires { IsInRange (Cut plan.now) }
    ensures input { EndsInput I.Source input.old input.new result }
    ensures output { EndsOutput O.Sink (IsCertificateText plan.now (I.left input.old))
        out.old out.new result }
{
    let points = match read_points(alloc, input) {
        Ok(points) => points,
        Err(stop) => return Status::from(stop),
    };
    let Ok(text) = certificate_text(alloc, &points, plan) else {
        return Status::NoMemory;
    };
    match put_all(out, &text) {
        Ok(()) => Status::Done,
        Err(_) => Status::WriteFault,
    }
}

// The text of the certificate of some points.
fn certificate_text(alloc: Global, points: &Points, plan: &CutPlan) -> Result<Vec<u8>, NoMemory>
    requires { IsInRange (Cut plan.now) }
    ensures { IfOk result (λ text. IsTextOf points.now plan.now text.items) }
{
    let cert = certificate_of(alloc, points, plan)?;
    let mut text = Vec::new(alloc);
    put_cert(alloc, &mut text, &cert)?;
    Ok(text)
}

// The certificate of some points, by squares or by distances.
fn certificate_of(alloc: Global, points: &Points, plan: &CutPlan) -> Result<Cert, NoMemory>
    requires { IsInRange (Cut plan.now) }
    ensures { IfOk result (StandsBy plan.now.absolute points.now plan.now.penalty plan.now.least) }
{
    let penalty = plan.penalty as i128;
    if plan.absolute {
        segmentation_by_distances(alloc, points, penalty, plan.least)
    } else {
        segmentation(alloc, points, penalty, plan.least)
    }
}

// Reads the lines, and prints the path of their points.
fn path<I: Source, O: Sink>(alloc: Global, plan: &PathPlan, input: &mut I, out: &mut O) -> Status
    requires { IsInRange (Path plan.now) }
    ensures { EndsPath I.Source O.Sink plan.now input.old input.new out.old out.new result }
{
    let (low, high) = (plan.low as i128, plan.high as i128);
    Status::from(path_points(alloc, low, high, input, out))
}

// Answers the script on the machines of a store, or on none where no store is named, and writes the replies.
fn apply_on<I: Source, O: Sink, K: Keeper, L: Ledger>(
    alloc: Global,
    store: &Option<Word<'_>>,
    input: &mut I,
    out: &mut O,
    keeper: &mut K,
    steps: &mut Steps<L>,
) -> Status
    ensures { EndsApply I.Source O.Sink K.Keeper (streams input.old out.old keeper.old steps.old)
        (streams input.new out.new keeper.new steps.new) store.now result }
{
    match store {
        None => apply(alloc, input, out, steps),
        Some(name) => apply_to(alloc, name, input, out, keeper, steps),
    }
}

// Answers the script on no machines, and writes the replies.
fn apply<I: Source, O: Sink, L: Ledger>(
    alloc: Global,
    input: &mut I,
    out: &mut O,
    steps: &mut Steps<L>,
) -> Status
    ensures { (now : State) × (why : Result (Unit {0}) Stop) × (result ≡ script_status why)
        × AnswersScript I.Source O.Sink (state_of []) now
        input.old input.new out.old out.new steps.old steps.new why }
{
    let mut session = session_on(alloc, Vec::new(alloc));
    let answered = answer(alloc, &mut session, input, out, steps);
    leave(session);
    match answered {
        Ok(()) => Status::Done,
        Err(stop) => Status::from(stop),
    }
}

// Leaves a session as it stands: the program ends next, so to take it apart, block by block, would be time for nothing.
fn leave(session: Session) {
    forget(session);
}

// Answers the script on the machines of a store, writes the replies, and adds the new rows.
fn apply_to<I: Source, O: Sink, K: Keeper, L: Ledger>(
    alloc: Global,
    store: &Word<'_>,
    input: &mut I,
    out: &mut O,
    keeper: &mut K,
    steps: &mut Steps<L>,
) -> Status
    ensures { EndsApply I.Source O.Sink K.Keeper (streams input.old out.old keeper.old steps.old)
        (streams input.new out.new keeper.new steps.new) (Some store.now) result }
{
    let Loaded { states, version } = match load(alloc, keeper, store.as_str()) {
        Ok(loaded) => loaded,
        Err(fault) => return Status::from(fault),
    };
    let mut session = session_on(alloc, states);
    if let Err(stop) = answer(alloc, &mut session, input, out, steps) {
        return Status::from(stop);
    }
    session.comes_back_law();
    match append_all(alloc, keeper, session.machines(), version) {
        Ok(()) => {
            leave(session);
            Status::Done
        }
        Err(fault) => Status::from(fault),
    }
}

// The session of the one script, on these machines.
fn session_on(alloc: Global, machines: Vec<MachineState>) -> Session
    ensures { result ≡ state_of machines.items }
{
    Session::new(alloc, Author::Script(1), machines)
}

// Answers the script, and writes the replies.
fn answer<I: Source, O: Sink, L: Ledger>(
    alloc: Global,
    session: &mut Session,
    input: &mut I,
    out: &mut O,
    steps: &mut Steps<L>,
) -> Result<(), Stop>
    ensures { AnswersScript I.Source O.Sink session.old session.new
        input.old input.new out.old out.new steps.old steps.new result }
{
    count_law();
    let answered = answer_counted(alloc, session, input, out, steps);
    publication_law();
    session.histories_law();
    finishes_law(session);
    answered
}

// What the machines of a session bisected finished well. Does nothing: its contract is what it is for.
fn finishes_law(session: &Session)
    ensures { AllBisectWell session.now }
{
    finished_law();
    session.histories_law();
}

// Writes the script of a number.
fn generate<O: Sink>(alloc: Global, number: u64, out: &mut O) -> Status
    ensures cause { IsOfOutput result }
    ensures output { EndsOutput O.Sink (λ text. text ≡ script_of number) out.old out.new result }
{
    let mut text = Vec::new(alloc);
    if put_script(alloc, &mut text, number).is_err() {
        return Status::NoMemory;
    }
    if put_all(out, &text).is_err() {
        return Status::WriteFault;
    }
    Status::Done
}

// Answers the script of a number, and writes the replies about segmentations.
fn run_trial<O: Sink, L: Ledger>(
    alloc: Global,
    number: u64,
    out: &mut O,
    steps: &mut Steps<L>,
) -> Status
    ensures { RunsScript O.Sink (script_of number) out.old out.new steps.old steps.new result }
{
    script_law();
    accepted_law();
    let Ok(mut script) = script_source(alloc, number) else {
        return Status::NoMemory;
    };
    try_script(alloc, &mut script, out, steps)
}

// Answers a script that ends well and has no request to refuse, whose source tells its bytes and never fails, and writes
// the replies about segmentations.
fn try_script<I: Source, O: Sink, L: Ledger>(
    alloc: Global,
    script: &mut I,
    out: &mut O,
    steps: &mut Steps<L>,
) -> Status
    ensures { (bytes : List ℕ) → I.left script.old ≡ Some bytes → I.faults script.new ≡ 0
        → EndsWell bytes → RefusesNone bytes
        → RunsScript O.Sink bytes out.old out.new steps.old steps.new result }
{
    part_law();
    count_law();
    let mut trial = Trial::new(Session::new(alloc, Author::Script(1), Vec::new(alloc)));
    let answered = answer_counted(alloc, &mut trial, script, out, steps);
    publication_law();
    trial.histories_law();
    match answered {
        Ok(()) => Status::Done,
        Err(stop) => Status::from(stop),
    }
}

// A source of the script of a number.
fn script_source(alloc: Global, number: u64) -> Result<SureSource, NoMemory>
    ensures { IfOk result (λ source. source ≡ script_of number) }
{
    let mut text = Vec::new(alloc);
    put_script(alloc, &mut text, number)?;
    Ok(SureSource::new(alloc, &text)?)
}
