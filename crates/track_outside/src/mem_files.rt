//! Files in memory.
ghost use Rattle.std.specs.Prelude.{◌≡◌, ◌↔◌, ◌<◌, ◌≤◌, [], ◌∷◌, ◌++◌, Some, None, vec_len, vec_capacity, option_map, IsTrue, IsSome, IfOk, IfSome, IfNone, OnOk, OnErr};
ghost use Rattle.track_outside.specs.{Memory.new_input, Named.{bytes_at, with_bytes, Opens, Creates, raised_by}, Folders.{files_of, calls_of, IsPlace, IsAbsent}};

use crate::NoMemory;
use crate::fault_count::{PlannedFaults, count_fault};
use crate::files::Files;
use crate::mem_sink::MemSink;
use crate::mem_source::MemSource;
use crate::out_error::OutError;
use crate::room::push_within;
use std::alloc::Global;
use std::marker::Model;

/// A name that is there, with its bytes.
#[derive(Drop)]
pub(crate) struct MemFile {
    pub name: Vec<u8>,
    pub bytes: Vec<u8>,
}

/// An open or a create that was made.
#[derive(Drop)]
pub(crate) struct NotedCall {
    pub creates: bool,
    pub name: Vec<u8>,
    pub failed: bool,
}

/// Files in memory, of which some opens and creates fail. They tell their names' bytes and their calls.
#[derive(Drop)]
pub struct MemFiles {
    alloc: Global,
    room: usize,
    files: Vec<MemFile>,
    calls: Vec<NotedCall>,
    plan: PlannedFaults,
    read_faults: u64,
    write_faults: u64,
}

impl Model for MemFiles {
    ghost use Rattle.track_outside.specs.{Named.Folder, Folders.{files_of, calls_of}};

    ghost Value = { Folder };

    ghost view = { λ s. record {
      files = files_of s.files.items;
      calls = calls_of s.calls.items;
      room = s.room;
      fails = s.plan.fails.items;
      asked = s.plan.calls;
      read_faults = s.read_faults;
      write_faults = s.write_faults;
    } };
}

impl MemFiles {
    ghost use Rattle.track_outside.specs.Named.{new_folder};

    /// No names. Each output has this room, and the opens and creates with these numbers, counted from 1, fail. Linear in
    /// the length of `fails`.
    pub fn new(alloc: Global, room: usize, fails: &[u64]) -> Result<MemFiles, NoMemory>
        ensures made { IfOk result (λ files. files ≡ new_folder room fails.now) }
    {
        Ok(MemFiles {
            alloc,
            room,
            files: Vec::new(alloc),
            calls: Vec::new(alloc),
            plan: PlannedFaults::new(alloc, fails)?,
            read_faults: 0,
            write_faults: 0,
        })
    }

    /// Sets a name's bytes; changes nothing where there is no memory. Linear in the number of names and of bytes.
    pub fn put(&mut self, name: &str, bytes: &[u8]) -> Result<(), NoMemory>
        ensures ok { OnOk result (self.new
            ≡ record self.old { files = with_bytes name.now bytes.now self.old.files }) }
        ensures err { OnErr result (self.new ≡ self.old) }
    {
        let bytes = Vec::from_slice(self.alloc, bytes)?;
        let name = Vec::from_slice(self.alloc, name.as_bytes())?;
        self.files.reserve(1)?;
        set_bytes(&mut self.files, name, bytes);
        Ok(())
    }

    /// The bytes of a name; none where it is not there. Linear in the number of names.
    pub fn get(&self, name: &str) -> Option<&[u8]>
        ensures { option_map (λ bytes. bytes.now) result ≡ bytes_at name.now self.now.files }
    {
        bytes_of_name(&self.files, name.as_bytes())
    }
}

// The place of a name.
fn place_of(files: &[MemFile], name: &[u8]) -> Option<usize>
    ensures some { IfSome result (λ i. IsPlace name.now (files_of files.now) i) }
    ensures none { IfNone result (IsAbsent name.now (files_of files.now)) }
{
    for (i, file) in files.iter().enumerate() {
        if is_same(&file.name, name) {
            return Some(i);
        }
    }
    None
}

// The bytes of a name.
fn bytes_of_name<'a>(files: &'a [MemFile], name: &[u8]) -> Option<&'a [u8]>
    ensures { option_map (λ bytes. bytes.now) result ≡ bytes_at name.now (files_of files.now) }
{
    match place_of(files, name) {
        Some(i) => {
            let file = &files[i];
            Some(&file.bytes)
        }
        None => None,
    }
}

// An input of a name's bytes.
fn input_of(alloc: Global, files: &[MemFile], name: &[u8]) -> Result<Option<MemSource>, NoMemory>
    ensures some { IfOk result (λ found. IfSome found (λ input.
        (bytes_at name.now (files_of files.now) ≡ Some input.left)
        × (input ≡ new_input input.left []))) }
    ensures none { IfOk result (λ found.
        IfNone found (bytes_at name.now (files_of files.now) ≡ None)) }
{
    match bytes_of_name(files, name) {
        Some(bytes) => Ok(Some(MemSource::new(alloc, bytes, &[])?)),
        None => Ok(None),
    }
}

fn is_same(bytes: &[u8], word: &[u8]) -> bool
    ensures { IsTrue result ↔ (bytes.now ≡ word.now) }
{
    bytes == word
}

// Sets a name's bytes, where there is room for one more name.
fn set_bytes(files: &mut Vec<MemFile>, name: Vec<u8>, bytes: Vec<u8>)
    requires { vec_len files.old < vec_capacity files.old }
    ensures { files_of files.new.items
        ≡ with_bytes name.items bytes.items (files_of files.old.items) }
{
    match place_of(files, &name) {
        Some(i) => files[i] = MemFile { name, bytes },
        None => push_within(files, MemFile { name, bytes }),
    }
}

// Sets the bytes of a name that is there.
fn replace_bytes(files: &mut Vec<MemFile>, name: Vec<u8>, bytes: Vec<u8>)
    requires { IsSome (bytes_at name.items (files_of files.old.items)) }
    ensures { files_of files.new.items
        ≡ with_bytes name.items bytes.items (files_of files.old.items) }
{
    match place_of(files, &name) {
        Some(i) => files[i] = MemFile { name, bytes },
        None => unreachable!(),
    }
}

// Notes an open or a create, where there is room for one call more.
fn note(calls: &mut Vec<NotedCall>, creates: bool, name: Vec<u8>, failed: bool)
    requires { vec_len calls.old < vec_capacity calls.old }
    ensures { calls_of calls.new.items ≡ calls_of calls.old.items
        ++ record { creates = creates; name = name.items; failed = failed } ∷ [] }
{
    push_within(
        calls,
        NotedCall {
            creates,
            name,
            failed,
        },
    );
}

impl Files for MemFiles {
    type Input = MemSource;

    type Output = MemSink;

    ghost contents = { λ s. Some s.files };

    ghost asked = { λ s. Some s.calls };

    ghost read_faults = { λ s. s.read_faults };

    ghost write_faults = { λ s. s.write_faults };

    fn open_input(&mut self, alloc: Global, name: &str) -> Result<MemSource, OutError>
        ensures opens { Opens name.now self.old self.new result }
        ensures counts { self.old.read_faults ≤ self.new.read_faults }
    {
        let noted = Vec::from_slice(alloc, name.as_bytes())?;
        self.calls.reserve(1)?;
        let input = input_of(alloc, &self.files, name.as_bytes())?;
        if self.plan.next_fails() {
            note(&mut self.calls, false, noted, true);
            count_fault(&mut self.read_faults);
            return Err(OutError::Failed);
        }
        match input {
            Some(input) => {
                note(&mut self.calls, false, noted, false);
                Ok(input)
            }
            None => {
                note(&mut self.calls, false, noted, true);
                count_fault(&mut self.read_faults);
                Err(OutError::Failed)
            }
        }
    }

    fn create_output(&mut self, alloc: Global, name: &str) -> Result<MemSink, OutError>
        ensures creates { Creates name.now self.old self.new result }
        ensures counts { self.old.write_faults ≤ self.new.write_faults }
    {
        let noted = Vec::from_slice(alloc, name.as_bytes())?;
        let named = Vec::from_slice(alloc, name.as_bytes())?;
        self.calls.reserve(1)?;
        self.files.reserve(1)?;
        let output = MemSink::named(alloc, name, self.room)?;
        if self.plan.next_fails() {
            note(&mut self.calls, true, noted, true);
            count_fault(&mut self.write_faults);
            return Err(OutError::Failed);
        }
        note(&mut self.calls, true, noted, false);
        set_bytes(&mut self.files, named, Vec::new(alloc));
        Ok(output)
    }

    fn close_input(&mut self, input: MemSource)
        ensures closed { self.new
            ≡ record self.old { read_faults = raised_by input.faults self.old.read_faults } }
        ensures counts { self.old.read_faults ≤ self.new.read_faults }
    {
        if input.faults() > 0 {
            count_fault(&mut self.read_faults);
        }
    }

    fn close_output(&mut self, output: MemSink)
        requires { IsSome (bytes_at output.name self.old.files) }
        ensures closed { self.new ≡ record self.old {
          files = with_bytes output.name output.taken self.old.files;
          write_faults = raised_by output.faults self.old.write_faults;
        } }
        ensures counts { self.old.write_faults ≤ self.new.write_faults }
    {
        let (name, bytes, faults) = output.into_parts();
        if faults > 0 {
            count_fault(&mut self.write_faults);
        }
        replace_bytes(&mut self.files, name, bytes);
    }
}
