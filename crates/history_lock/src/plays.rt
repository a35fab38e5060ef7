//! What each atomic step tells. These types are for the proofs alone.
use crate::historied::Historied;
use crate::view::View;
use atomic_table::{Join, Play, Split};

pub struct Draw;

impl<S, E, L> Play<Option<S>, View<E, L>> for Draw {
    ghost use Rattle.history_lock.specs.Steps.{drew};

    ghost then = { drew };
}

pub struct DrawIfFree;

impl<S, E, L> Play<Option<S>, View<E, L>> for DrawIfFree {
    ghost use Rattle.history_lock.specs.Steps.{drew_if_free};

    ghost then = { drew_if_free };
}

/// A step on a word of which the rule says nothing.
pub struct Aside;

impl<S, E, L> Play<Option<S>, View<E, L>> for Aside {
    ghost use Rattle.history_lock.specs.Steps.{stayed};

    ghost then = { stayed };
}

pub struct Look;

impl<S: Historied> Play<Option<S>, View<S::Entry, S::Label>> for Look {
    ghost use Rattle.history_lock.specs.Steps.{looked};

    ghost then = { looked S.history S.label };
}

pub struct ReadCount;

impl<S, E, L> Play<Option<S>, View<E, L>> for ReadCount {
    ghost use Rattle.history_lock.specs.Steps.{read_count};

    ghost then = { read_count };
}

pub struct CountEntry;

impl<S: Historied> Play<Option<S>, View<S::Entry, S::Label>> for CountEntry {
    ghost use Rattle.history_lock.specs.Steps.{counted};

    ghost then = { counted S.history };
}

pub struct PassOn;

impl<S, E, L> Play<Option<S>, View<E, L>> for PassOn {
    ghost use Rattle.history_lock.specs.Steps.{passed_on};

    ghost then = { passed_on };
}

pub struct SplitOff;

impl<E, L> Split<View<E, L>> for SplitOff {
    ghost use Rattle.history_lock.specs.Rule.{split_left, split_right};

    ghost left = { split_left };

    ghost right = { split_right };
}

pub struct JoinIn;

impl<E, L> Join<View<E, L>> for JoinIn {
    ghost use Rattle.history_lock.specs.Rule.{join_both, spent_view};

    ghost both = { join_both };

    ghost spent = { spent_view };
}

pub struct Meet;

impl<S, E, L> Play<Option<S>, View<E, L>> for Meet {
    ghost use Rattle.history_lock.specs.Steps.{met};

    ghost then = { met };
}

pub struct Recall;

impl<S, E, L> Play<Option<S>, View<E, L>> for Recall {
    ghost use Rattle.history_lock.specs.Steps.{recalled};

    ghost then = { recalled };
}
