//! What has been gathered of a run so far.
use sample_model::Samples;

// What has been gathered of a run.
#[derive(Drop)]
pub(crate) struct Gathered {
    // The samples, as far as a run may have them.
    pub(crate) samples: Samples,
    // Whether there were more.
    pub(crate) over: bool,
    // How many members gave no sample.
    pub(crate) ignored: u64,
}
