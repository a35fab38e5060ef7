//! A script, answered from the bytes in to the bytes out.
ghost use Rattle.std.specs.Prelude.{◌≡◌, ◌≢◌, ◌+◌, ◌<◌, ◌≤◌, ℕ, true, List, [], All, length, OnOk, OnErr, IfOk, IfErr, option_to_list};
ghost use Rattle.track_outside.specs.Calls.{GaveAtMost, Took};
ghost use Rattle.request_words.specs.Bodies.{Item};
ghost use Rattle.request_reader.specs.{Next.items_of, Scripts.input_limit};
ghost use Rattle.track_model.specs.{Outcomes.refuses, Replies.apart};
ghost use Rattle.script_loop.specs.{Folds.AreAnswers, Endings.{HasRead, HasWritten, HasAnswered}, Paced.Paced, Turns.{Answers, Adds, Gathers, FailsOn, IsLost, StopsSo}};

use crate::NoMemory;
use crate::desk::Desk;
use crate::pace::{Pace, Together};
use crate::replies::Replies;
use crate::stop::Stop;
use request_model::{Answer, Refusal, Reply};
use request_reader::{Asked, Lines, pieces_law, read_request};
use std::alloc::Global;
use track_outside::{Sink, Source};

/// Answers a script: reads its requests one after another, answers each on the machine that it is about, and writes the
/// replies. Ends at the end of the script, or at the first thing that stops it; what was answered by then stands, and is
/// written.
///
/// Replies are gathered and handed out together: after a request after which no whole line is left of what was read, once
/// they are 64 KiB, and where the answering ends. So those before a whole line that asks nothing wait for the next request.
///
/// Linear in the bytes of the script, beside what the steps take. Keeps one request at once, and of the replies 64 KiB and
/// one more at most.
pub fn answer_script<D: Desk, I: Source, O: Sink>(
    alloc: Global,
    desk: &mut D,
    input: &mut I,
    out: &mut O,
) -> Result<(), Stop>
    // Some items were read, and answered by a text, and that is what was written.
    ensures ends { (items : List Item) × (text : List ℕ)
        × HasRead I.Source input.old input.new items result
        × HasAnswered D.answers desk.old desk.new items text result
        × HasWritten O.Sink out.old out.new text result }
    ensures few { GaveAtMost (input_limit + 1) (I.left input.old) (I.left input.new) }
    ensures counts { I.faults input.old ≤ I.faults input.new }
    ensures named { O.name out.new ≡ O.name out.old }
{
    answer_paced(alloc, desk, &Together, input, out)
}

/// Answers a script as [`answer_script`] does, and hands out the replies as the pace says. Where it hands out each by itself,
/// all items but one at most have replies that the sink took whole.
pub fn answer_paced<D: Desk, P: Pace, I: Source, O: Sink>(
    alloc: Global,
    desk: &mut D,
    pace: &P,
    input: &mut I,
    out: &mut O,
) -> Result<(), Stop>
    ensures ends { Paced I.Source O.Sink input.old input.new out.old out.new
        D.answers D.fails P.each desk.old desk.new result }
    ensures few { GaveAtMost (input_limit + 1) (I.left input.old) (I.left input.new) }
    ensures counts { I.faults input.old ≤ I.faults input.new }
    ensures named { O.name out.new ≡ O.name out.old }
{
    let mut replies = Replies::new(alloc);
    match answer_all(alloc, desk, pace, input, &mut replies, out) {
        Ok(()) => hand_out(pace, &mut replies, out),
        Err(stop) => Err(stop_with(stop, pace, &mut replies, out)),
    }
}

// Answers a script, and writes the replies but those that are gathered at last.
fn answer_all<D: Desk, P: Pace, I: Source, O: Sink>(
    alloc: Global,
    desk: &mut D,
    pace: &P,
    input: &mut I,
    replies: &mut Replies,
    out: &mut O,
) -> Result<(), Stop>
    requires none { replies.old ≡ [] }
    ensures ends { Answers I.Source O.Sink input.old input.new out.old out.new
        D.answers D.fails P.each desk.old desk.new replies.new result }
    ensures few { GaveAtMost (input_limit + 1) (I.left input.old) (I.left input.new) }
    ensures counts { I.faults input.old ≤ I.faults input.new }
    ensures named { O.name out.new ≡ O.name out.old }
{
    pieces_law();
    let Ok(mut lines) = Lines::new(alloc) else {
        return Err(Stop::NoMemory);
    };
    loop {
        let asked = read_request(alloc, &mut lines, input)?;
        let Ok(()) = answer_next(alloc, desk, asked, replies) else {
            return Err(Stop::NoMemory);
        };
        if lines.has_ended() {
            return Ok(());
        }
        hand_out_in_time(&lines, pace, replies, out)?;
    }
}

// Answers what was read, and gathers the reply, if one is told.
fn answer_next<D: Desk>(
    alloc: Global,
    desk: &mut D,
    asked: Asked,
    replies: &mut Replies,
) -> Result<(), NoMemory>
    ensures ok { OnOk result
        (Adds D.answers desk.old (items_of asked) desk.new replies.old replies.new) }
    ensures err { OnErr result (replies.new ≡ replies.old) }
    ensures lost { OnErr result (IsLost D.answers D.fails desk.old (items_of asked) desk.new) }
{
    let Some(reply) = reply_to(desk, asked)? else {
        return Ok(());
    };
    replies.add(alloc, &reply)
}

// The reply to what was read, if one is told.
#[tactic(auto, using(crate::proofs::Answering::answers_one))]
fn reply_to<D: Desk>(desk: &mut D, asked: Asked) -> Result<Option<Reply>, NoMemory>
    ensures ok { IfOk result (λ told.
        AreAnswers D.answers desk.old (items_of asked) (option_to_list told) desk.new) }
    ensures err { OnErr result (D.fails desk.old desk.new) }
{
    match asked {
        Asked::Request(request) => Ok(desk.answer(&request)?),
        Asked::Refused(reason) => Ok(Some(refused(reason))),
        Asked::End => Ok(None),
    }
}

// The reply to what can't be read: the reason, and no history.
fn refused(reason: Refusal) -> Reply
    ensures { result ≡ apart (refuses reason) }
{
    Reply {
        step: 0,
        answer: Answer::Refused(reason),
    }
}

// Hands out what is gathered, if anything is.
fn hand_out<P: Pace, O: Sink>(pace: &P, replies: &mut Replies, out: &mut O) -> Result<(), Stop>
    ensures ok { OnOk result (Took O.Sink out.old out.new replies.old) }
    ensures err { IfErr result (FailsOn O.Sink out.old out.new replies.old) }
    ensures none { replies.new ≡ [] }
    ensures named { O.name out.new ≡ O.name out.old }
{
    if replies.are_none() {
        return Ok(());
    }
    replies.hand_out(out)?;
    pace.handed_out();
    Ok(())
}

// Hands out what is gathered, where the pace says so: where it is many bytes or no whole line is left of what was read.
fn hand_out_in_time<P: Pace, O: Sink>(
    lines: &Lines,
    pace: &P,
    replies: &mut Replies,
    out: &mut O,
) -> Result<(), Stop>
    ensures ok { OnOk result (Gathers O.Sink out.old out.new replies.old replies.new) }
    ensures err { IfErr result (FailsOn O.Sink out.old out.new replies.old) }
    ensures failed { OnErr result (replies.new ≡ []) }
    ensures soon { All (λ b. b ≢ 10) lines.now.kept → replies.new ≡ [] }
    ensures few { length replies.new < 65536 }
    ensures each { P.each ≡ true → replies.new ≡ [] }
    ensures named { O.name out.new ≡ O.name out.old }
{
    if !pace.is_due(lines.holds_line(), replies.are_many()) {
        return Ok(());
    }
    hand_out(pace, replies, out)
}

// Hands out what is gathered at a stop, and answers the stop; at a fault of the sink nothing more is written.
fn stop_with<P: Pace, O: Sink>(stop: Stop, pace: &P, replies: &mut Replies, out: &mut O) -> Stop
    ensures stops { StopsSo O.Sink out.old out.new replies.old stop result }
    ensures named { O.name out.new ≡ O.name out.old }
{
    match stop {
        Stop::WriteFault => stop,
        Stop::NoMemory => {
            let _ = hand_out(pace, replies, out);
            stop
        }
        Stop::ReadFault | Stop::CutOff(_) | Stop::InputTooLong => {
            match hand_out(pace, replies, out) {
                Ok(()) => stop,
                Err(failed) => failed,
            }
        }
    }
}
