//! Reading the files of an audit.
ghost use Rattle.std.specs.{Prelude.{◌≡◌, ◌+◌, ◌-◌, ◌++◌, ◌<◌, ◌≤◌, List, length, IfOk, IfErr, OnOk}, Vec.Iter.into_iter_items};
ghost use Rattle.track_outside.specs.Calls.{GaveAtMost};
ghost use Rattle.audit_model.specs.declared.heard.Heard.{Heard as AHeard};
ghost use Rattle.audit_command.specs.{Opening.IsKept, Endings.texts_of, Reading.{IsTextOf, ReadsAll, ReadsMore, StopsAll, StopsBehind}};

use crate::end::FileStop;
use crate::files::close_all;
use audit_model::{Bytes, Heard};
use line_text::NoMemory;
use std::alloc::Global;
use std::vec::IntoIter;
use track_outside::{Files, Source};

// How many bytes are read at once.
const PIECE: usize = 0x1_0000;

// Reads the files one after another behind some texts, and closes each. They may have so many bytes together.
pub(crate) fn read_all<F: Files>(
    alloc: Global,
    files: &mut F,
    mut inputs: IntoIter<F::Input>,
    room: usize,
    texts: &mut Vec<Bytes>,
) -> Result<(), FileStop>
    ensures read { OnOk result (ReadsAll F.Input.Source (into_iter_items inputs) room
        texts.old.items texts.new.items) }
    ensures stop { IfErr result (StopsAll F.Files F.Input.Source (into_iter_items inputs)
        room (length texts.old.items) files.old files.new) }
    ensures kept { IsKept F.Files files.old files.new }
    ensures noted { F.asked files.new ≡ F.asked files.old }
{
    let Some(mut input) = inputs.next() else {
        return Ok(());
    };
    let read = read_one(alloc, &mut input, room, texts.len() as u64 + 1);
    files.close_input(input);
    match read {
        Ok(text) => {
            let left = room - text.len();
            match texts.push(text) {
                Ok(()) => read_all(alloc, files, inputs, left, texts),
                Err(_) => {
                    close_all(files, inputs);
                    Err(FileStop::NoMemory)
                }
            }
        }
        Err(stop) => {
            close_all(files, inputs);
            Err(stop)
        }
    }
}

// The bytes of the file at a place, of which there may be so many. Reads no more, but one byte to see that there are none.
fn read_one<I: Source>(
    alloc: Global,
    input: &mut I,
    room: usize,
    place: u64,
) -> Result<Bytes, FileStop>
    ensures text { IfOk result (IsTextOf I.Source input.old) }
    ensures fits { IfOk result (λ text. length text ≤ room) }
    ensures stop { IfErr result (StopsBehind I.Source input.old input.new 0 room place) }
    ensures few { GaveAtMost (room + 1) (I.left input.old) (I.left input.new) }
    ensures counts { I.faults input.old ≤ I.faults input.new }
{
    let Ok(mut piece) = vec![in alloc; 0u8; PIECE] else {
        return Err(FileStop::NoMemory);
    };
    let buffer = piece.as_mut_slice();
    let mut text = Vec::new(alloc);
    loop {
        let len = (room - text.len()).min(PIECE - 1) + 1;
        let count = match read_more(input, &mut buffer[..len], room, place, &mut text) {
            Ok(count) => count,
            Err(stop) => return Err(stop),
        };
        if count == 0 {
            return Ok(Bytes::of(text));
        }
    }
}

// Reads more bytes behind the text, and answers how many: none at the end. The file may have so many; the buffer has one
// byte more than there is room for, at most, and that byte shows that the file has more.
fn read_more<I: Source>(
    input: &mut I,
    buffer: &mut [u8],
    room: usize,
    place: u64,
    text: &mut Vec<u8>,
) -> Result<usize, FileStop>
    requires some { 0 < length buffer.old }
    requires fits { length text.old.items ≤ room }
    requires short { length buffer.old ≤ room - length text.old.items + 1 }
    ensures more { IfOk result (ReadsMore I.Source input.old input.new
        text.old.items text.new.items room) }
    ensures stop { IfErr result (StopsBehind I.Source input.old input.new
        (length text.old.items) room place) }
    ensures few { GaveAtMost (room - length text.old.items + 1)
        (I.left input.old) (I.left input.new) }
    ensures counts { I.faults input.old ≤ I.faults input.new }
{
    let Ok(count) = input.read(buffer) else {
        return Err(FileStop::ReadFault);
    };
    if count > room - text.len() {
        return Err(FileStop::TooLong(place));
    }
    if text.extend_from_slice(&buffer[..count]).is_err() {
        return Err(FileStop::NoMemory);
    }
    Ok(count)
}

// The scripts, each with the transcript behind it.
pub(crate) fn in_pairs(
    alloc: Global,
    mut texts: IntoIter<Bytes>,
    heard: &mut Vec<Heard>,
) -> Result<(), NoMemory>
    ensures { (whole : List AHeard) → into_iter_items texts ≡ texts_of whole
        → OnOk result (heard.new.items ≡ heard.old.items ++ whole) }
{
    let Some(script) = texts.next() else {
        return Ok(());
    };
    let Some(transcript) = texts.next() else {
        return Ok(());
    };
    heard.push(Heard { script, transcript })?;
    in_pairs(alloc, texts, heard)
}
