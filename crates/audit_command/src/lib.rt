//! The command `audit`, below its words and statuses: from the names of files to the line that is printed.
//!
//! [`audit_files`] opens the file with the journals, then each script and its transcript, reads all of them, and writes one
//! line where they fit together. Promised: at each end which files were opened, what they have, and what was written; the
//! verdict is that of `play_audit` on what the files have.
//!
//! Stands on `play_audit` for the verdict, on `command_words` for the names of transcripts, and on the objects of
//! `track_outside`. `specs/Endings.antt` says how an audit ends, `specs/Opening.antt` which files it opens.
#![tactic(auto)]

mod command;
mod end;
mod files;
mod reading;
mod text;

pub use audit_model::{AuditStop, Verdict};
pub use command::audit_files;
pub use end::{AuditEnd, FileStop};
pub use play_audit::one_verdict_law;
pub use text::put_shown;
