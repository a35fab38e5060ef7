//! What a round says of its places.
ghost use Rattle.std.specs.Prelude.{◌≡◌};

/// A place, and the status of its test; none where no test of it could be had.
#[derive(Clone, Copy, Default, Drop)]
pub struct Said {
    /// The place.
    pub place: u64,
    /// The status.
    pub status: Option<u8>,
}

impl Said {
    ghost use Rattle.wide_bisect.specs.Answers.{is_end, is_bad, is_good, is_skipped};

    // Whether it ends the search.
    pub(crate) fn is_end(self) -> bool
        ensures { result ≡ is_end self }
    {
        match self.status {
            None => true,
            Some(status) => status >= 128,
        }
    }

    // Whether the place is good.
    pub(crate) fn is_good(self) -> bool
        ensures { result ≡ is_good self }
    {
        self.status == Some(0)
    }

    // Whether nothing can be said of the place.
    pub(crate) fn is_skipped(self) -> bool
        ensures { result ≡ is_skipped self }
    {
        self.status == Some(125)
    }

    // Whether the place is bad.
    pub(crate) fn is_bad(self) -> bool
        ensures { result ≡ is_bad self }
    {
        !self.is_end() && !self.is_good() && !self.is_skipped()
    }
}
