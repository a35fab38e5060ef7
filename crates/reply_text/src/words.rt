//! Words of a line, each behind a space.
ghost use Rattle.std.specs.{Prelude.{◌∷◌, [], decimal}, Fmt.signed_decimal};
ghost use Rattle.line_text.specs.Names.{spelling};
ghost use Rattle.metric_value.specs.Values.{value_text};
ghost use Rattle.request_model.specs.Lines.{spaced};
ghost use Rattle.regression_state.specs.Moves as state;
ghost use Rattle.report_model.specs.Outcomes.{outcome_text};
ghost use Rattle.reply_text.specs.{Replies.at, Puts.Puts};

use crate::NoMemory;
use line_text::{Name, put_escaped, put_i128, put_name, put_u64};
use metric_value::put_value;
use regression_state::State;
use report_model::{Told, put_told};
use std::alloc::Global;

// Appends a space and a word.
pub(crate) fn put_word(out: &mut Vec<u8>, word: &str) -> Result<(), NoMemory>
    ensures { Puts result out.old.items out.new.items (32 ∷ word.now) }
{
    out.push(b' ')?;
    out.extend_from_slice(word.as_bytes())?;
    Ok(())
}

// Appends a space and a name.
pub(crate) fn put_spelled(alloc: Global, out: &mut Vec<u8>, name: &Name) -> Result<(), NoMemory>
    ensures { Puts result out.old.items out.new.items (32 ∷ spelling name.now) }
{
    out.push(b' ')?;
    put_name(alloc, out, name)?;
    Ok(())
}

// Appends a space and a text as names are spelled.
pub(crate) fn put_text(alloc: Global, out: &mut Vec<u8>, text: &str) -> Result<(), NoMemory>
    ensures { Puts result out.old.items out.new.items (32 ∷ spelling text.now) }
{
    out.push(b' ')?;
    put_escaped(alloc, out, text.as_bytes())?;
    Ok(())
}

// Appends a space and a number.
pub(crate) fn put_number(alloc: Global, out: &mut Vec<u8>, n: u64) -> Result<(), NoMemory>
    ensures { Puts result out.old.items out.new.items (32 ∷ decimal n) }
{
    put_marked(alloc, out, b' ', n)
}

// Appends a space and a signed number.
pub(crate) fn put_amount(alloc: Global, out: &mut Vec<u8>, n: i128) -> Result<(), NoMemory>
    ensures { Puts result out.old.items out.new.items (32 ∷ signed_decimal n) }
{
    out.push(b' ')?;
    put_i128(alloc, out, n)?;
    Ok(())
}

// Appends a space and a value of a metric.
pub(crate) fn put_worth(
    alloc: Global,
    out: &mut Vec<u8>,
    metric: &[u8],
    value: i64,
) -> Result<(), NoMemory>
    ensures { Puts result out.old.items out.new.items (32 ∷ value_text metric.now value) }
{
    out.push(b' ')?;
    put_value(alloc, out, metric, value)
}

// Appends a step.
pub(crate) fn put_at(alloc: Global, out: &mut Vec<u8>, step: u64) -> Result<(), NoMemory>
    ensures { Puts result out.old.items out.new.items (at step) }
{
    put_marked(alloc, out, b'@', step)
}

// Appends a byte, and a number behind it.
fn put_marked(alloc: Global, out: &mut Vec<u8>, mark: u8, n: u64) -> Result<(), NoMemory>
    ensures { Puts result out.old.items out.new.items (mark ∷ decimal n) }
{
    out.push(mark)?;
    put_u64(alloc, out, n)?;
    Ok(())
}

// Appends a space and a step.
pub(crate) fn put_step(alloc: Global, out: &mut Vec<u8>, step: u64) -> Result<(), NoMemory>
    ensures { Puts result out.old.items out.new.items (32 ∷ at step) }
{
    out.push(b' ')?;
    put_at(alloc, out, step)
}

// Appends the words of two states, each behind a space.
pub(crate) fn put_move(out: &mut Vec<u8>, before: State, after: State) -> Result<(), NoMemory>
    ensures { Puts result out.old.items out.new.items
        (spaced (state.word before ∷ state.word after ∷ [])) }
{
    put_word(out, before.word())?;
    put_word(out, after.word())
}

// Appends a space, and where a bisection stands.
pub(crate) fn put_outcome(alloc: Global, out: &mut Vec<u8>, told: &Told) -> Result<(), NoMemory>
    ensures { Puts result out.old.items out.new.items (spaced (outcome_text told.now ∷ [])) }
{
    out.push(b' ')?;
    put_told(alloc, out, told)?;
    Ok(())
}
