//! What reading is in the middle of.
ghost use Rattle.std.specs.Prelude.{◌≡◌};
ghost use Rattle.json_text.specs.declared.state.Stop.{Stop};

use crate::NoMemory;
use crate::shared::SharedText;
use crate::tree::{Json, JsonList, JsonMembers};
use std::alloc::{AllocError, AllocFailed};

/// What is open round a value: a list with the items before it, or an object with the members before it and its key.
#[derive(Drop)]
pub(crate) enum Open {
    List(JsonList),
    Member(JsonMembers, SharedText),
}

/// A place in a number, named by what stands before it.
#[derive(Clone, Copy)]
pub(crate) enum Digits {
    AfterMinus,
    AfterZero,
    InWhole,
    AfterPoint,
    InFraction,
    AfterMark,
    AfterSign,
    InExponent,
}

/// A place in a text. The numbers are the hex digits so far, and before them the high surrogate that waits for its low one.
#[derive(Clone, Copy)]
pub(crate) enum Within {
    Plain,
    AfterBackslash,
    AfterU,
    AfterHex(u32),
    AfterTwoHex(u32),
    AfterThreeHex(u32),
    AfterHigh(u32),
    AfterHighBackslash(u32),
    AfterHighU(u32),
    AfterHighHex(u32),
    AfterHighTwoHex(u32, u32),
    AfterHighThreeHex(u32, u32),
}

/// What a byte does in a text: it leads to another place, it adds a byte or a character, it ends the text, or it cannot stand there.
#[derive(Clone, Copy)]
pub(crate) enum Move {
    Goes(Within),
    Adds(u8),
    Spells(char),
    Ends,
    Refused,
}

/// What has to come, the white space before it left out.
#[derive(Drop)]
pub(crate) enum Awaits {
    Value,
    FirstItem,
    FirstKey,
    NextKey(JsonMembers),
    Colon(JsonMembers, SharedText),
    Ended(Json),
}

/// Why reading stops at a byte.
#[derive(Clone, Copy)]
pub(crate) enum Stop {
    Refused,
    TooDeep,
    NoMemory,
}

impl<T: Drop> From<AllocFailed<T>> for Stop {
    ghost from_gives = { λ _ stop. stop ≡ Stop.NoMemory };

    fn from(_: AllocFailed<T>) -> Stop {
        Stop::NoMemory
    }
}

impl From<AllocError> for Stop {
    ghost from_gives = { λ _ stop. stop ≡ Stop.NoMemory };

    fn from(_: AllocError) -> Stop {
        Stop::NoMemory
    }
}
