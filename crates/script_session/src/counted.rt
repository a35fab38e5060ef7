//! A script, answered by steps that are counted.
ghost use Rattle.std.specs.Prelude.{◌≡◌, ◌+◌, ◌≤◌, ℕ, List};
ghost use Rattle.track_outside.specs.Calls.{GaveAtMost};
ghost use Rattle.request_words.specs.Bodies.{Item};
ghost use Rattle.request_reader.specs.Scripts.{input_limit};
ghost use Rattle.script_loop.specs.Endings.{HasRead, HasWritten, HasAnswered};
ghost use Rattle.script_desk.specs.Counting.{Counting, counted};

use crate::NoMemory;
use pelt_core::Steps;
use request_model::{Reply, Request};
use script_desk::CountingDesk;
use script_loop::{Desk, Stop, Together, answer_paced};
use std::alloc::Global;
use std::sync::ledger::Ledger;
use track_outside::{Sink, Source};

// The desk of what answers and of its count, which it is lent both.
#[derive(Drop)]
pub(crate) struct WithCount<'a, 'b, D, L: Ledger> {
    desk: &'a mut D,
    steps: &'b mut Steps<L>,
}

impl<'a, 'b, D, L: Ledger> WithCount<'a, 'b, D, L> {
    ghost use Rattle.std.specs.Prelude.{◌≡◌};

    fn new(desk: &'a mut D, steps: &'b mut Steps<L>) -> WithCount<'a, 'b, D, L>
        ensures desk { result.desk.ghost_name ≡ desk.entry.ghost_name }
        ensures steps { result.steps.ghost_name ≡ steps.entry.ghost_name }
        ensures begun { result.desk.now ≡ desk.old }
        ensures count { result.steps.now ≡ steps.old }
    {
        WithCount { desk, steps }
    }
}

impl<'a, 'b, D: CountingDesk, L: Ledger> Desk for WithCount<'a, 'b, D, L> {
    ghost use Rattle.std.specs.Prelude.{◌≡◌};
    ghost use Rattle.script_desk.specs.Counting.{Counting, counted};

    ghost answers = { λ before q told after.
        Counting D.answers (counted before.desk.now before.steps.now) q told
        (counted after.desk.now after.steps.now)
        × (after.desk.ghost_name ≡ before.desk.ghost_name)
        × (after.steps.ghost_name ≡ before.steps.ghost_name) };

    ghost fails = { λ before after.
        D.fails before.desk.now after.desk.now
        × (after.desk.ghost_name ≡ before.desk.ghost_name)
        × (after.steps.ghost_name ≡ before.steps.ghost_name) };

    fn answer(&mut self, request: &Request) -> Result<Option<Reply>, NoMemory> {
        self.desk.answer(request, self.steps)
    }
}

/// Answers a script as `script_loop` does: reads its requests one after another, answers each, and writes the replies; and
/// counts the steps that the answers take.
///
/// Linear in the bytes of the script, beside what the steps take. Keeps one request at once, and of the replies 64 KiB and
/// one more at most.
pub fn answer_counted<D: CountingDesk, I: Source, O: Sink, L: Ledger>(
    alloc: Global,
    desk: &mut D,
    input: &mut I,
    out: &mut O,
    steps: &mut Steps<L>,
) -> Result<(), Stop>
    // Some items were read, and answered by a text and some steps, and that is what was written and counted.
    ensures ends { (items : List Item) × (text : List ℕ)
        × HasRead I.Source input.old input.new items result
        × HasAnswered (Counting D.answers) (counted desk.old steps.old) (counted desk.new steps.new)
        items text result
        × HasWritten O.Sink out.old out.new text result }
    ensures few { GaveAtMost (input_limit + 1) (I.left input.old) (I.left input.new) }
    ensures counts { I.faults input.old ≤ I.faults input.new }
{
    let mut both = WithCount::new(desk, steps);
    answer_both(alloc, &mut both, input, out)
}

// Answers a script by what answers and its count.
fn answer_both<D: CountingDesk, I: Source, O: Sink, L: Ledger>(
    alloc: Global,
    both: &mut WithCount<'_, '_, D, L>,
    input: &mut I,
    out: &mut O,
) -> Result<(), Stop>
    ensures desk { both.new.desk.ghost_name ≡ both.old.desk.ghost_name }
    ensures steps { both.new.steps.ghost_name ≡ both.old.steps.ghost_name }
    ensures ends { (items : List Item) × (text : List ℕ)
        × HasRead I.Source input.old input.new items result
        × HasAnswered (Counting D.answers) (counted both.old.desk.now both.old.steps.now)
        (counted both.new.desk.now both.new.steps.now) items text result
        × HasWritten O.Sink out.old out.new text result }
    ensures few { GaveAtMost (input_limit + 1) (I.left input.old) (I.left input.new) }
    ensures counts { I.faults input.old ≤ I.faults input.new }
{
    answer_paced(alloc, both, &Together, input, out)
}
