//! A value that came to a series and has no place yet.

// A value of a step, at a commit.
#[derive(Clone, Copy)]
pub struct Coming {
    pub commit: u64,
    pub step: u64,
    pub value: i64,
}
