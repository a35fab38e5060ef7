//! The best segmentations of some points at all penalties of a range.
//!
//! Fewer cuts are best where a cut costs more, and two penalties whose best cut lists have equally many cuts have the
//! same list. So a range of penalties falls into stretches, each with one best cut list, of which there are at most as
//! many as positions. `Stretch` is one, with the certificates at its two ends, which show all that lies between;
//! `specs/Paths.antt` says what the path of some points is, and `path_law` that no points have two.
//!
//! `path` finds the path, with at most three tables for each stretch (`counted_path`), `check_path` says whether some
//! stretches are it, and `put_path` writes it (`specs/Text.antt`).
//!
//! It stands on the certificates of `segment_cost`, which `pelt_core` finds and `cost_certificate` checks and writes.
#![tactic(auto)]

mod checked;
mod found;
mod laws;
mod stretch;
mod text;

pub use checked::check_path;
pub use found::{Counted, counted_path, path};
pub use laws::{path_law, penalties_law};
pub use segment_cost::NoMemory;
pub use stretch::{Stretch, Stretches};
pub use text::put_path;
