//! Whether a certificate stands for points, and its text.
//!
//! `check` looks at each entry of the tables once, and goes over the places in blocks of 32: each block behind with each
//! block before it, at the places of the one before, and at the single pairs, only where what is known of that block
//! doesn't tell, since neighbouring segments cost together at most what their union costs. It takes no memory.
//! `put_cert` writes the text that `specs/Text.antt` defines.
#![tactic(auto)]

mod blocks;
mod checked;
mod entries;
mod level;
mod tables;
mod text;
mod walk;

pub use checked::check;
pub use text::put_cert;
