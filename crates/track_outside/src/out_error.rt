//! Why a call on the outside gave nothing.
ghost use Rattle.std.specs.Prelude.{◌≡◌};
ghost use Rattle.track_outside.specs.declared.out_error.OutError.TheVariants as error;

use crate::NoMemory;
use crate::source::Failed;
use std::alloc::AllocError;

/// Why a call on an object of the outside gave nothing.
#[derive(Clone, Copy, Debug, PartialEq, Eq)]
pub enum OutError {
    /// It failed, and the object counted it.
    Failed,
    /// There was no memory for it.
    NoMemory,
}

impl From<Failed> for OutError {
    ghost from_gives = { λ _ e. e ≡ error.Failed };

    fn from(_: Failed) -> OutError {
        OutError::Failed
    }
}

impl From<AllocError> for OutError {
    ghost from_gives = { λ _ e. e ≡ error.NoMemory };

    fn from(_: AllocError) -> OutError {
        OutError::NoMemory
    }
}
