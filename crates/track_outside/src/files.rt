//! The trait of names that inputs are opened by, and outputs created.
ghost use Rattle.std.specs.Prelude.{◌≡◌, ℕ, ◌<◌, ◌≤◌, List, [], Option, true, false, option_map, IsSome, IsNone, IfOk, IfSome, IfNone, OnOk, OnErr};
ghost use Rattle.track_outside.specs.{Counts.Rose, Named.{NamedBytes, Call, bytes_at, with_bytes, with_call}};
ghost use Rattle.track_outside.specs.declared.out_error.OutError.TheVariants as error;

use crate::out_error::OutError;
use crate::sink::Sink;
use crate::source::Source;
use std::alloc::Global;

/// Names that inputs are opened by, and outputs created.
pub trait Files {
    type Input: Source + Send + Drop;

    type Output: Sink + Send + Drop;

    /// The bytes of each name, where they are told.
    ghost contents: { Self → Option (List NamedBytes) };

    /// The opens and creates, in order, where they are told.
    ghost asked: { Self → Option (List Call) };

    /// How often reading failed.
    ghost read_faults: { Self → ℕ };

    /// How often writing failed.
    ghost write_faults: { Self → ℕ };

    /// The input that has the name's bytes left. A name that is not there can't be opened.
    fn open_input(&mut self, alloc: Global, name: &str) -> Result<Self::Input, OutError>
        ensures opened { IfOk result (λ input. IfSome (contents self.old) (λ files.
            IsSome (bytes_at name.now files) × (Self.Input.left input ≡ bytes_at name.now files))) }
        ensures fresh { IfOk result (λ input. Self.Input.faults input ≡ 0) }
        ensures same { contents self.new ≡ contents self.old }
        ensures noted { asked self.new ≡ with_call false name.now result (asked self.old) }
        ensures counts { read_faults self.old ≤ read_faults self.new }
        ensures rose { result ≡ Err error.Failed
            → Rose (read_faults self.old) (read_faults self.new) }
        ensures writes { write_faults self.new ≡ write_faults self.old };

    /// The output of that name, which is then there and has no bytes.
    fn create_output(&mut self, alloc: Global, name: &str) -> Result<Self::Output, OutError>
        ensures created { IfOk result (λ output. (Self.Output.name output ≡ name.now)
            × IfSome (Self.Output.taken output) (λ bytes. bytes ≡ [])) }
        ensures told { IfOk result (λ output.
            IfSome (contents self.old) (λ files. IsSome (Self.Output.taken output))) }
        ensures fresh { IfOk result (λ output. Self.Output.faults output ≡ 0) }
        ensures emptied { OnOk result (contents self.new
            ≡ option_map (with_bytes name.now []) (contents self.old)) }
        ensures same { OnErr result (contents self.new ≡ contents self.old) }
        ensures noted { asked self.new ≡ with_call true name.now result (asked self.old) }
        ensures counts { write_faults self.old ≤ write_faults self.new }
        ensures rose { result ≡ Err error.Failed
            → Rose (write_faults self.old) (write_faults self.new) }
        ensures reads { read_faults self.new ≡ read_faults self.old };

    /// Ends the reading of an input.
    fn close_input(&mut self, input: Self::Input)
        ensures same { contents self.new ≡ contents self.old }
        ensures noted { asked self.new ≡ asked self.old }
        ensures counts { read_faults self.old ≤ read_faults self.new }
        ensures rose { 0 < Self.Input.faults input
            → Rose (read_faults self.old) (read_faults self.new) }
        ensures writes { write_faults self.new ≡ write_faults self.old };

    /// Ends the writing of an output: its name, which must be there, has the bytes that it took.
    fn close_output(&mut self, output: Self::Output)
        requires { IfSome (contents self.old) (λ files.
            IsSome (bytes_at (Self.Output.name output) files)) }
        ensures set { IfSome (Self.Output.taken output) (λ bytes.
            contents self.new
            ≡ option_map (with_bytes (Self.Output.name output) bytes) (contents self.old)) }
        ensures untold { IfNone (contents self.old) (IsNone (contents self.new)) }
        ensures noted { asked self.new ≡ asked self.old }
        ensures counts { write_faults self.old ≤ write_faults self.new }
        ensures rose { 0 < Self.Output.faults output
            → Rose (write_faults self.old) (write_faults self.new) }
        ensures reads { read_faults self.new ≡ read_faults self.old };
}
