//! The trait of what runs tests of commits.
ghost use Rattle.std.specs.Prelude.{◌≡◌, ℕ, ◌≤◌, List, Option};
ghost use Rattle.track_outside.specs.{Counts.Rose, Asked.{Ask, after_ask}};
ghost use Rattle.track_outside.specs.declared.out_error.OutError.TheVariants as error;

use crate::out_error::OutError;
use std::alloc::Global;

/// Something that runs a test on a commit, and tells how the test ended.
pub trait Runner: Drop {
    /// What it was asked, oldest first, where it tells that.
    ghost asked: { Self → Option (List Ask) };

    /// How often it failed.
    ghost faults: { Self → ℕ };

    /// The status of the test of that word on the commit of that name.
    fn ask(&mut self, alloc: Global, test: &str, commit: &str) -> Result<u8, OutError>
        ensures noted { asked self.new ≡ after_ask test.now commit.now result (asked self.old) }
        ensures counts { faults self.old ≤ faults self.new }
        ensures rose { result ≡ Err error.Failed → Rose (faults self.old) (faults self.new) };
}
