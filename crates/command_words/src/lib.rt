//! The words of a command, read as command lines are read.
//!
//! The first word is the command's name. The words behind it are read as those of a simple command without flags for help
//! or the version. So an option's value may be joined to it by `=` or be the next word, `--` ends the options, and no option
//! or flag is given twice.
//!
//! Proved: `command_of` answers exactly the command that the words are, or that they are none, and fails only for want of
//! memory; no words are two commands; the plain words of each command are it.
//!
//! `specs/Kinds.antt` has the commands with their names and arguments, `specs/Commands.antt` which words are a command. It
//! stands on `clap`, which reads the words, and on the names and numbers of `line_text`.
#![tactic(auto)]

mod audit;
mod command;
mod given;
mod kind;
mod numbers;
mod plan;
mod simple;
mod texts;

pub use audit::AuditPlan;
pub use command::{
    Command, CutPlan, HuntPlan, PathPlan, Word, command_of, one_command_law, plain_words_law,
};
pub use kind::Kind;
pub use plan::{PlayPlan, transcript_name};
pub use std::alloc::AllocError as NoMemory;
