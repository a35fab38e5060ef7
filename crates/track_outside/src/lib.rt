//! The outside as the program sees it: objects that bytes come from and go to, and that count their faults.
//!
//! Five traits: [`Source`] gives bytes, [`Sink`] takes them, [`Files`] opens inputs and creates outputs by name, [`Keeper`]
//! keeps rows of bytes, [`Runner`] runs tests of commits. Each promises that `Failed` comes only where the object's own count rose in that call, and, where
//! the object tells contracts what it holds, what moved. Those in memory tell it, those of the system tell nothing: what a
//! terminal, a file or a program really gives or keeps, no contract can say. A [`Gate`] is passed by running threads, and no
//! contract says anything of it.
//!
//! Stands on std alone.
#![tactic(auto)]

mod fault_count;
mod files;
mod gate;
mod keeper;
mod mem_files;
mod mem_keeper;
mod mem_runner;
mod mem_sink;
mod mem_source;
mod out_error;
mod put;
mod real;
mod real_files;
mod real_runner;
mod repeat_source;
mod room;
mod runner;
mod sink;
mod source;
mod sure_sink;
mod sure_source;

pub use files::Files;
pub use gate::{Gate, OpenGate, Place};
pub use keeper::Keeper;
pub use mem_files::MemFiles;
pub use mem_keeper::MemKeeper;
pub use mem_runner::MemRunner;
pub use mem_sink::MemSink;
pub use mem_source::MemSource;
pub use out_error::OutError;
pub use put::put_all;
pub use real::{RealSink, RealSource};
pub use real_files::RealFiles;
pub use real_runner::RealRunner;
pub use repeat_source::RepeatSource;
pub use runner::Runner;
pub use sink::Sink;
pub use source::{Failed, Source};
pub use std::alloc::AllocError as NoMemory;
pub use sure_sink::SureSink;
pub use sure_source::SureSource;
