//! The tests.

mod of_command_words;
mod of_history_lock;
mod of_side_by_side;
mod of_store_rows;
mod of_track_outside;
