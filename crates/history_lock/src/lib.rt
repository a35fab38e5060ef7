//! A lock that keeps the history of what it guards.
//!
//! The value that the lock guards stands for a list of entries, which only grows. Each caller holds a [`Pass`], which
//! remembers how much of that list he has seen. Who enters is given the value with what he has seen and then entries
//! that others made; who leaves has added nothing, or one entry, which bears his mark. So whatever a caller proved of
//! the history before he left still holds of the beginning of what he finds when he comes back.
//!
//! Promised, by the clauses of [`HistoryLock`] and whatever order threads run in: one history; a pass finds what it
//! saw, unchanged, at the front of it; what came behind bears no mark of its own; a pass into which all others were
//! joined, and that is outside, closes the lock with exactly what it has seen, and never finds it in use. A pass that is
//! inside always does.
//!
//! Not promised: that a pass which waits is ever served, in what order passes are served, or how long it takes. A pass
//! that is dropped while its caller holds the value keeps the lock taken.
//!
//! An entry costs O(1): where nobody waits, entering and leaving take nine atomic steps, of which three write, and no
//! system call, and copy nothing. A pass that waits sleeps after a few microseconds, and leaving then wakes one. Seen
//! entries are known to proofs alone and take no memory. Stands on `atomic_table`, whose steps tell what each atomic
//! step found.
#![tactic(auto)]

mod historied;
mod law;
mod lock;
mod plays;
mod turns;
mod view;

pub use historied::Historied;
pub use lock::{HistoryLock, InUse, Pass};
pub use std::alloc::AllocError as NoMemory;
