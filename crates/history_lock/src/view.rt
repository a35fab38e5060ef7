//! What a pass knows, for the proofs. No value of these types is made.
use crate::historied::Historied;
use atomic_table::Seat;
use std::collections::LinkedList;

/// An entry, and the mark of the pass that made it: none where it came with the first state.
pub struct Marked<E> {
    pub entry: E,
    pub by: Option<u64>,
}

/// Where a pass is between two of its calls, or within one.
pub enum Stage<E> {
    /// Joined into the first pass.
    Spent,
    Outside,
    /// The turn that was drawn.
    Waiting(u64),
    /// It has the turn and the slot, and the state that lay there has these entries.
    Turn(u64, LinkedList<E>),
    /// It has seen the whole history.
    Inside(u64),
    /// What the pass that was joined has seen, before both are compared.
    Meeting(LinkedList<Marked<E>>),
}

/// What a pass knows of its lock.
pub struct View<E, L> {
    pub stage: Stage<E>,
    pub seen: LinkedList<Marked<E>>,
    pub mark: u64,
    /// How many passes were split off.
    pub given: u64,
    /// The marks of the passes that were joined.
    pub joined: LinkedList<u64>,
    /// None once it was joined.
    pub label: Option<L>,
}

/// A pass's seat at the table of its lock.
pub type SeatOf<S> = Seat<Option<S>, View<<S as Historied>::Entry, <S as Historied>::Label>>;
