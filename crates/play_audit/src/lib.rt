//! The audit of a shared run: whether its files fit together, told from the files alone.
//!
//! [`audit`] takes the text of the journals and each script with its transcript, and gives the verdict of `audit_model`:
//! that they fit together, or the first line or request that doesn't fit. Each transcript is heard in its order: each reply
//! is compared with the one that the journal of its machine gives behind as many entries as it names, by a walk along that
//! journal that begins where the script first names the machine, and only goes forward. [`plain_audit`] begins one anew for
//! each request, as the plain reference. By [`one_verdict_law`] files have one verdict at most (`specs/Laws.antt`).
//!
//! Stands on `audit_model` for the verdicts, on `journal_reader` for the journals, on `journal_walk` for what a machine's
//! state is behind so many entries and what a request comes to there, on `reply_laws` for what a reply's text tells, and on
//! `request_reader` and `reply_text` for the texts.
#![tactic(auto)]

mod auditing;
mod behind;
mod hearing;
mod items;
mod laws;
mod marks;
mod place;
mod same;
mod segment;
mod text;

pub use audit_model::{AuditStop, Bytes, Heard, NoMemory, Verdict, fits_law};
pub use auditing::{audit, plain_audit};
pub use laws::one_verdict_law;
