//! LNT runs (submission files of format version 2), read and written by the profile of docs/FORMATS.md.
//!
//! Promised: [`read_report`] answers exactly what its bytes are due: the run that the text's tree gives
//! where no rule is broken, else the first broken rule with its member, the first number that is no
//! sample, or the fault of the text at its place. What [`put_report`] writes is due to be read as the
//! run, with nothing ignored. [`one_due_law`] says that bytes are due one answer at most. A run keeps by
//! its type that no sample's metric is `name`.
//!
//! The definitions are in `specs/`: `Rules` (the rules in their order), `Numbers` (the numbers of a run
//! and the samples that they are), `Runs`, `Outcomes` (what bytes are due), `Written` (what is written).
//! Stands on `json_text` for trees, `metric_value` for values, `sample_model` for samples, `line_text`
//! for names.
#![tactic(auto)]

mod fault;
mod gather;
mod gathered;
mod look;
mod quoted;
mod repeated_key;
mod report;
mod rules;
mod run;
mod write;

pub use fault::ReportFault;
pub use report::{one_due_law, read_report};
pub use run::LntRun;
pub use std::alloc::AllocError as NoMemory;
pub use write::put_report;
