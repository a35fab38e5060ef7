//! A worker that bisects beside running scripts.
ghost use Rattle.history_model.specs.declared.entries.Author.TheVariants as author;
ghost use Rattle.track_room.specs.{Rooms.IsPassOf, Taking.{IsQuestion, OfSeen}};
ghost use Rattle.bisect_workers.specs.Beside.{IsBisectedIn};

use crate::NoMemory;
use crate::asking::ask;
use history_model::{Author, jobs_law};
use std::alloc::Global;
use std::sync::Wait;
use track_outside::{Gate, Place, Runner};
use track_room::{AtGate, Ended, Pace, Question, Room, RoomPass};

// Asks a question of the runner, and says what became of it.
fn finish<R: Wait, A: Runner, P: Pace>(
    rt: &R,
    alloc: Global,
    room: &Room,
    pass: &mut RoomPass,
    number: u8,
    test: &str,
    runner: &mut A,
    pace: &P,
    machine: u8,
    question: &Question,
) -> Result<(), NoMemory>
    requires room { IsPassOf room.now pass.old }
    requires asked { OfSeen machine pass.old (λ h. IsQuestion h question.now) }
    ensures room { IsPassOf room.now pass.new }
    ensures bisected { IsBisectedIn (author.Bisect number) test.now pass.old pass.new
        (A.asked runner.old) (A.asked runner.new) (A.faults runner.old) (A.faults runner.new) }
{
    jobs_law();
    let status = ask(alloc, runner, test, question)?;
    pace.done();
    let _ = room.settle(rt, pass, Author::Bisect(number), machine, question, status)?;
    Ok(())
}

// Takes a question, asks it and says what became of it; tells whether there was one.
fn turn<R: Wait, A: Runner, P: Pace>(
    rt: &R,
    alloc: Global,
    room: &Room,
    pass: &mut RoomPass,
    number: u8,
    test: &str,
    runner: &mut A,
    pace: &P,
) -> Result<bool, NoMemory>
    requires { IsPassOf room.now pass.old }
    ensures room { IsPassOf room.now pass.new }
    ensures bisected { IsBisectedIn (author.Bisect number) test.now pass.old pass.new
        (A.asked runner.old) (A.asked runner.new) (A.faults runner.old) (A.faults runner.new) }
{
    let Some((machine, question)) = room.take_question(rt, alloc, pass)? else {
        return Ok(false);
    };
    pace.taken();
    finish(
        rt, alloc, room, pass, number, test, runner, pace, machine, &question,
    )?;
    Ok(true)
}

/// As [`bisect_by`], with a gate that is passed when a question is taken, and when the runner has answered or failed.
pub fn bisect<R: Wait, A: Runner, G: Gate>(
    rt: &R,
    alloc: Global,
    room: &Room,
    pass: &mut RoomPass,
    number: u8,
    test: &str,
    runner: &mut A,
    ended: &Ended,
    gate: &G,
) -> Result<(), NoMemory>
    requires { IsPassOf room.now pass.old }
    ensures room { IsPassOf room.now pass.new }
    ensures bisected { IsBisectedIn (author.Bisect number) test.now pass.old pass.new
        (A.asked runner.old) (A.asked runner.new) (A.faults runner.old) (A.faults runner.new) }
{
    let pace = AtGate {
        gate,
        taken: Place::QuestionTaken(number),
        done: Place::AnswerReady(number),
    };
    bisect_by(rt, alloc, room, pass, number, test, runner, ended, &pace)
}

/// Takes questions, asks the runner and says what became of them, until none is claimable and the scripts have ended. A
/// failed ask gives its question up. May wait for other passes, and for the runner.
pub fn bisect_by<R: Wait, A: Runner, P: Pace>(
    rt: &R,
    alloc: Global,
    room: &Room,
    pass: &mut RoomPass,
    number: u8,
    test: &str,
    runner: &mut A,
    ended: &Ended,
    pace: &P,
) -> Result<(), NoMemory>
    requires { IsPassOf room.now pass.old }
    ensures room { IsPassOf room.now pass.new }
    ensures bisected { IsBisectedIn (author.Bisect number) test.now pass.old pass.new
        (A.asked runner.old) (A.asked runner.new) (A.faults runner.old) (A.faults runner.new) }
{
    'turns: for _ in rt.forever() {
        let last = ended.is_set();
        if !turn(rt, alloc, room, pass, number, test, runner, pace)? {
            if last {
                return Ok(());
            }
            ended.pause(rt);
        }
    }
    Ok(())
}
