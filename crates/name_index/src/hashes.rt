//! Two hashes of a name: a quick one, which whoever picks names can make equal, and one that is hard to make equal.
ghost use Rattle.std.specs.Prelude.{◌≡◌};
ghost use Rattle.name_index.specs.Placed.{quick_hash, hard_hash};

use line_text::Name;
use std::hash::{DefaultHasher, FoldHasher, Hasher};

// The quick hash of a name. Linear in its length.
pub(crate) fn quick_hash(name: &Name) -> u64
    ensures { result ≡ quick_hash name.now }
{
    let mut hasher = FoldHasher::default();
    hasher.write(name.as_str().as_bytes());
    hasher.finish()
}

// The hash of a name that is hard to make equal. Linear in its length.
pub(crate) fn hard_hash(name: &Name) -> u64
    ensures { result ≡ hard_hash name.now }
{
    let mut hasher = DefaultHasher::new();
    hasher.write(name.as_str().as_bytes());
    hasher.finish()
}
