//! Journals, written to a sink.
ghost use Rattle.std.specs.Prelude.{◌≡◌, ◌≤◌, ◌<◌, ◌-◌, ◌++◌, length, slice_get, OnOk, IfErr, Some, Err};
ghost use Rattle.history_model.specs.declared.entries.Placed.{Placed};
ghost use Rattle.journal_text.specs.{Journals.{entry_line, journal_text, journals_text}, Writing.{Pends, Writes}};

use crate::NoMemory;
use crate::lines::{put_head, put_line};
use machine_state::MachineState;
use std::alloc::Global;
use track_outside::{OutError, Sink, put_all};

// So many bytes are handed out, and no more gathered.
const MANY: usize = 0x1_0000;

/// Writes the journals of the machines, one after another. Linear in their text; keeps 64 KiB of it and one entry more.
pub fn write_journals<O: Sink>(
    alloc: Global,
    tracks: &[MachineState],
    out: &mut O,
) -> Result<(), OutError>
    ensures { Writes O.Sink out.old out.new (journals_text tracks.now) result }
{
    for track in tracks {
        write_journal(alloc, track, out)?;
    }
    Ok(())
}

// Writes the journal of a machine.
fn write_journal<O: Sink>(alloc: Global, track: &MachineState, out: &mut O) -> Result<(), OutError>
    ensures { Writes O.Sink out.old out.new (journal_text track.now) result }
{
    let mut text = Vec::new(alloc);
    put_head(alloc, &mut text, track)?;
    let mut step = 0;
    while step < track.len() {
        step += 1;
        put_step(alloc, track, step, &mut text)?;
        hand_out_many(&mut text, out)?;
    }
    put_all(out, &text)?;
    Ok(())
}

// Appends the line of an entry of the machine.
fn put_step(
    alloc: Global,
    track: &MachineState,
    step: u64,
    text: &mut Vec<u8>,
) -> Result<(), NoMemory>
    requires some { 0 < step }
    requires within { step ≤ length track.now.history }
    ensures { OnOk result ((placed : Placed)
        × (slice_get track.now.history (step - 1) ≡ Some placed)
        × (text.new.items ≡ text.old.items ++ entry_line step placed)) }
{
    let Some(placed) = track.entry(step) else {
        unreachable!()
    };
    put_line(alloc, text, step, placed)
}

// Hands the text out where it is many bytes.
fn hand_out_many<O: Sink>(text: &mut Vec<u8>, out: &mut O) -> Result<(), OutError>
    ensures ok { OnOk result (Pends O.Sink out.old out.new text.old.items text.new.items) }
    ensures err { IfErr result (λ why. Writes O.Sink out.old out.new text.old.items (Err why)) }
{
    if text.len() < MANY {
        return Ok(());
    }
    put_all(out, text)?;
    text.clear();
    Ok(())
}
