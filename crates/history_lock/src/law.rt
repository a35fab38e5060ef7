//! The rule of the lock's words, slot and passes, which every atomic step keeps.
use crate::historied::Historied;
use crate::view::View;
use atomic_table::TableRule;
use std::snapshot::Snapshot;

pub struct Law;

impl<S: Historied> TableRule<Option<S>, View<S::Entry, S::Label>, Snapshot<S>> for Law {
    ghost use Rattle.history_lock.specs.Rule.{Kept, first_view};

    ghost holds = { λ key. Kept S.history S.label (S.label key.value) };

    ghost first = { λ key. first_view (S.history key.value) (S.label key.value) };
}
