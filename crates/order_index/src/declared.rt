//! The answers of a declaration.
/// What a declaration of a commit comes to.
#[derive(Clone, Copy, Debug, PartialEq, Eq)]
pub enum Declared {
    /// Neither the number nor the name was there.
    New,
    /// The very pair was declared at this step.
    Same(u64),
    /// The number, or else the name, is declared in another pair, which has this number.
    Taken(u64),
    /// There are as many commits as there may be.
    Full,
}
