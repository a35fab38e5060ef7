//! The tests.

mod of_bodies;
mod of_histories;
mod of_outside;
mod of_scripts;
mod of_segmentation;
mod of_texts;
