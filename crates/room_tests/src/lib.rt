//! Tests of the room and of workers at it: whole runs of requests, by one thread and by two, series that are taken, tables
//! that are handed over, and workers alone.
//!
//! A test begins with the rows of a store, and compares what was told, or the end of the journals that it leaves. Each
//! function makes one object and hands it on, and answers none or false where there is no memory.
#![tactic(auto)]

#[cfg(test)]
mod made;
#[cfg(test)]
mod of_track_room;
#[cfg(test)]
mod of_track_series;
#[cfg(test)]
mod of_track_state;
#[cfg(test)]
mod of_workers;
#[cfg(test)]
mod stated_calls;
