//! The public reader.
ghost use Rattle.std.specs.Prelude.{◌≡◌, ◌⊎◌, Result, IfOk, IfErr, MatchResult};
ghost use Rattle.json_text.specs.{Grammar.IsText, Outcome.{Outcome, fault_at}, Answers.{IsFault, IsDue}, Places.Reads, Tree.Tree, View.tree_of};

use crate::class::Blank;
use crate::machine::{finish, step};
use crate::shared::Source;
use crate::state::{Awaits, Open, Stop};
use crate::token::run_end;
use crate::tree::Json;
use std::alloc::Global;

/// Why bytes are not read, and at which place, from 0. Where several reasons hold, the one that reading meets first is given, but bytes
/// that are not UTF-8 come before all else.
#[derive(Clone, Copy)]
pub enum JsonFault {
    /// The bytes are UTF-8 up to here, and no further.
    NotText(u64),
    /// Some JSON text begins with the bytes before this place, and none goes on with the byte here, or the bytes end here unfinished.
    NotJson(u64),
    /// The byte here opens a 33rd level of lists and objects.
    TooDeep(u64),
    /// There was no memory for the tree.
    NoMemory,
}

impl Stop {
    /// The fault of a stop at this place.
    fn at(self, place: usize) -> JsonFault
        ensures { result ≡ fault_at self place }
    {
        match self {
            Stop::Refused => JsonFault::NotJson(place as u64),
            Stop::TooDeep => JsonFault::TooDeep(place as u64),
            Stop::NoMemory => JsonFault::NoMemory,
        }
    }
}

/// The tree of a JSON text (RFC 8259) of at most 32 levels of lists and objects in one another. A byte order mark is refused, and an
/// escaped surrogate stands only in a pair, high before low.
///
/// Takes time linear in the bytes. Memory holds the tree, one copy of the text for its numbers, texts and keys, and a stack of at most 32
/// open levels.
pub fn read_json(alloc: Global, bytes: &[u8]) -> Result<Json, JsonFault>
    // The tree is the one of the bytes.
    ensures found { IfOk result (λ json. Reads bytes.now (tree_of json)) }
    // Where the bytes have a tree it is given, unless memory runs out.
    ensures only { (tree : Tree) → Reads bytes.now tree
        → MatchResult result (λ json. tree_of json ≡ tree) (λ fault. fault ≡ JsonFault.NoMemory) }
    // A fault stands at its place.
    ensures fault { IfErr result (λ fault. IsFault bytes.now fault) }
    // Where a fault is due it is given, unless memory runs out.
    ensures place { (due : JsonFault) → IsDue bytes.now (Err due)
        → MatchResult result (λ _. ⊥) (λ fault. (fault ≡ due) ⊎ (fault ≡ JsonFault.NoMemory)) }
{
    match std::str::from_utf8(bytes) {
        Ok(text) => read_text(alloc, text),
        Err(error) => Err(JsonFault::NotText(error.valid_up_to() as u64)),
    }
}

/// The same of text.
fn read_text(alloc: Global, text: &str) -> Result<Json, JsonFault>
    ensures { Outcome result text.now }
{
    let Ok(text) = Source::of(alloc, text) else {
        return Err(JsonFault::NoMemory);
    };
    read_source(alloc, &text)
}

/// The same of a text that the tree shares.
fn read_source(alloc: Global, text: &Source) -> Result<Json, JsonFault>
    ensures { Outcome result text.now }
{
    let bytes = text.as_bytes();
    let mut open: Vec<Open> = Vec::new(alloc);
    let mut awaits = Awaits::Value;
    let mut place = run_end::<Blank>(bytes, 0);
    while place < bytes.len() {
        match step(alloc, &mut open, awaits, text, &mut place) {
            Ok(next) => awaits = next,
            Err(stop) => return Err(stop.at(place)),
        }
        place = run_end::<Blank>(bytes, place);
    }
    match finish(&open, awaits) {
        Some(value) => Ok(value),
        None => Err(JsonFault::NotJson(bytes.len() as u64)),
    }
}

/// The law that bytes are the text of one tree at most.
pub fn one_tree_law(bytes: &[u8])
    ensures { (one other : Tree) → IsText bytes.now one → IsText bytes.now other → one ≡ other }
{}

/// The law that one answer at most is due: a tree, or one fault at one place.
pub fn one_answer_law(bytes: &[u8])
    ensures { (one other : Result Tree JsonFault) → IsDue bytes.now one → IsDue bytes.now other
        → one ≡ other }
{}
