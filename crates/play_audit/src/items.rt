//! What a script asks.
ghost use Rattle.std.specs.Prelude.{◌≡◌, ◌≤◌, ◌^◌, ◌++◌, ℕ, List, true, false, length, IfOk, OnOk, Err};
ghost use Rattle.request_words.specs.Bodies.{Item as AnItem};
ghost use Rattle.request_reader.specs.Next as next;
ghost use Rattle.request_reader.specs.Scripts.{IsScript, cut_off, end};
ghost use Rattle.play_audit.specs.Items.{GoesOn, Finishes, IsCutOff};
ghost use Rattle.play_audit.specs.declared.items.ItemsFault.TheVariants as fault;

use crate::NoMemory;
use request_model::{Refusal, Request};
use request_reader::{Asked, Lines, ReadStop, pieces_law, read_request};
use std::alloc::Global;
use track_outside::SureSource;

// What a line of a script asks, or why it can't be read.
pub(crate) type Item = Result<Request, Refusal>;

// Why a script's items aren't read.
#[derive(Clone, Copy, Debug, PartialEq, Eq)]
pub(crate) enum ItemsFault {
    // It is cut off at this place.
    CutOff(u64),
    // There was no memory.
    NoMemory,
}

// All that a script asks, in order. Linear in its bytes.
pub(crate) fn items_of(alloc: Global, script: &[u8]) -> Result<Vec<Item>, ItemsFault>
    requires { length script.now ≤ 2 ^ 30 }
    ensures read { IfOk result (λ items. IsScript script.now items.items end) }
    ensures cut { (offset : ℕ) → result ≡ Err (fault.CutOff offset)
        → (items : List AnItem) × IsScript script.now items (cut_off offset) }
{
    let Ok(mut source) = SureSource::new(alloc, script) else {
        return Err(ItemsFault::NoMemory);
    };
    let Ok(mut lines) = Lines::new(alloc) else {
        return Err(ItemsFault::NoMemory);
    };
    let mut items = Vec::new(alloc);
    while !lines.has_ended() {
        if let Err(fault) = read_item(alloc, &mut lines, &mut source, &mut items) {
            return Err(fault);
        }
    }
    Ok(items)
}

// Reads what a script asks next, if it asks one thing more.
fn read_item(
    alloc: Global,
    lines: &mut Lines,
    source: &mut SureSource,
    items: &mut Vec<Item>,
) -> Result<(), ItemsFault>
    requires open { lines.old.ended ≡ false }
    requires on { lines.old.stopped ≡ false }
    ensures more { IfOk result (λ _. lines.new.ended ≡ false → GoesOn
        (record { unread = lines.old; left = source.old; items = items.old.items })
        (record { unread = lines.new; left = source.new; items = items.new.items })) }
    ensures last { IfOk result (λ _. lines.new.ended ≡ true → Finishes
        (record { unread = lines.old; left = source.old; items = items.old.items })
        items.new.items) }
    ensures cut { (offset : ℕ) → result ≡ Err (fault.CutOff offset) → IsCutOff
        (record { unread = lines.old; left = source.old; items = items.old.items }) offset }
{
    pieces_law();
    match read_request(alloc, lines, source) {
        Ok(asked) => match add_item(items, asked) {
            Ok(()) => Ok(()),
            Err(_) => Err(ItemsFault::NoMemory),
        },
        Err(ReadStop::CutOff(offset)) => Err(ItemsFault::CutOff(offset)),
        Err(_) => Err(ItemsFault::NoMemory),
    }
}

// Adds what was read, if it is an item.
fn add_item(items: &mut Vec<Item>, asked: Asked) -> Result<(), NoMemory>
    ensures { OnOk result (items.new.items ≡ items.old.items ++ next.items_of asked) }
{
    match asked {
        Asked::Request(request) => items.push(Ok(request))?,
        Asked::Refused(reason) => items.push(Err(reason))?,
        Asked::End => {}
    }
    Ok(())
}
