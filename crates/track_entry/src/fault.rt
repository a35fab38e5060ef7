//! Why no entry was read.
ghost use Rattle.std.specs.Prelude.{◌≡◌};
ghost use Rattle.line_text.specs.declared.name.NameError.TheVariants as error;
ghost use Rattle.track_entry.specs.declared.fault.EntryFault.TheVariants as fault;

use crate::NoMemory;
use history_model::Entry;
use line_text::NameError;

/// What a reader of entries gives.
pub type EntryResult = Result<Entry, EntryFault>;

/// Why no entry was read.
#[derive(Clone, Copy)]
pub enum EntryFault {
    /// The text spells no entry.
    NotEntry,
    /// There was no memory.
    NoMemory,
}

impl From<NameError> for EntryFault {
    ghost from_gives = { λ e made. (e ≡ error.BadName → made ≡ fault.NotEntry)
        × (e ≡ error.NoMemory → made ≡ fault.NoMemory) };

    fn from(error: NameError) -> EntryFault {
        match error {
            NameError::BadName => EntryFault::NotEntry,
            NameError::NoMemory => EntryFault::NoMemory,
        }
    }
}

impl From<NoMemory> for EntryFault {
    ghost from_gives = { λ _ made. made ≡ fault.NoMemory };

    fn from(_: NoMemory) -> EntryFault {
        EntryFault::NoMemory
    }
}
