//! Machines with their histories, kept as the rows of a store.
//!
//! [`load`] starts a keeper under a name and makes the machines of its rows; [`append_all`] adds the rows of what a session
//! made of them. A store keeps every entry but the publications, and gives it back as an entry that was kept.
//!
//! Proved: what is loaded is what the rows lead to, or the first bad row is named (`specs/Loading.antt`); exactly the new
//! rows of the machines are added, or none (`specs/Rows.antt`). [`rows_law`] says that rows lead to one list of machines at
//! most, and [`comes_back_law`] that what was kept comes back: the rows before and the new rows of machines that went on
//! from those loaded lead to each as it is kept (`specs/Kept.antt`, `specs/Growth.antt`, `specs/Laws.antt`); by
//! [`may_be_kept_law`] all machines may be kept. By [`kept_law`] leaving out the publications keeps a history legal.
//!
//! [`place_of`] finds a machine among others (`specs/Machines.antt`, `specs/Places.antt`).
//!
//! Stands on `store_rows` for the rows of any values, on `machine_state` and `track_replay` for histories, and on
//! `track_entry` for the texts of entries.
#![tactic(auto)]

mod append;
mod laws;
mod loaded;
mod loading;
mod place;
mod spelled;
mod states;

pub use append::append_all;
pub use laws::{comes_back_law, kept_law, rows_law};
pub use loaded::Loaded;
pub use loading::load;
pub use place::place_of;
pub use spelled::may_be_kept_law;
pub use std::alloc::AllocError as NoMemory;
pub use store_rows::{AppendFault, LoadFault};
