//! Values that stand for a list of entries.
ghost use Rattle.std.specs.Prelude.{◌≡◌, List, length};

/// A value that stands for a list of entries, its history, and has a label that no call of a lock changes.
pub trait Historied: Send + Drop {
    /// What the history is a list of.
    type Entry;

    /// What stays the same of the value for as long as a lock guards it.
    type Label;

    /// The entries, oldest first. Contracts alone see them.
    ghost history: { Self → List Self.Entry };

    /// The label. Contracts alone see it.
    ghost label: { Self → Self.Label };

    /// How many entries there are, in O(1). Takes no memory.
    fn len(&self) -> u64
        ensures { result ≡ length (history self.now) };
}
