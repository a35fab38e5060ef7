//! The lock and its passes.
ghost use Rattle.std.specs.Prelude.{◌≡◌, ◌≢◌, ◌+◌, ◌-◌, ◌^◌, ◌≤◌, ◌⊎◌, ◌↔◌, [], IfOk, IfErr, OnOk, OnErr, IsErr, IsOkAnd, Some};

use crate::NoMemory;
use crate::historied::Historied;
use crate::law::Law;
use crate::plays::{CountEntry, JoinIn, Meet, ReadCount, Recall, SplitOff};
use crate::turns::{SERVING, TICKET};
use crate::view::{SeatOf, View};
use atomic_table::Table;
use std::alloc::Global;
use std::snapshot::Snapshot;
use std::sync::Wait;

// How many entries the history has.
const COUNT: usize = 0;

/// A turn was drawn and not served yet: some pass is inside, waits, or was dropped while it was inside. The two counts
/// are modulo 2^64, and differ.
#[derive(Clone, Copy, Debug, PartialEq, Eq)]
pub struct InUse {
    /// How many turns were drawn.
    pub ticket: u64,
    /// How many turns were served.
    pub serving: u64,
}

/// A lock round a value that stands for its history. It is shared by reference among the threads that hold its passes.
#[derive(Drop)]
pub struct HistoryLock<S: Historied> {
    pub(crate) table: Table<Option<S>, View<S::Entry, S::Label>, Snapshot<S>, Law, Global>,
    ghost sized: { (table.shared.table_id.words ≡ 5) × (table.shared.table_id.slots ≡ 1) },
}

/// What one caller has seen of the history of a lock, and the mark of the entries that he adds. The lock's first pass
/// has the mark 0, and the k-th pass that was split from it the mark k.
#[derive(Drop)]
pub struct Pass<S: Historied> {
    seat: SeatOf<S>,
    /// The count that was read on entering.
    count: u64,
    /// How many passes were split from this one.
    splits: u64,
}

impl<S: Historied> HistoryLock<S> {
    ghost use Rattle.history_lock.specs.{Passes.{seen, mark, given, joined, label, own_marks, IsFirst, IsWhole, IsPassOf, IsOutside, IsInside, IsSame, Extends, Joins, AddsOneAtMost, MayLeave}, Marks.{AreBy, Follows, HaveMarksUpTo, entries, unmarked}, Steps.{Carries, Catches, MayAdd, Waits}, Steps.in_slot, Rule.WholeIsAlone};

    /// The lock of this state, and its first pass, which has seen the entries that the state has; these have no mark.
    /// Without memory the state is dropped. O(1).
    pub fn new(alloc: Global, state: S) -> Result<(HistoryLock<S>, Pass<S>), NoMemory>
        ensures pass { IfOk result (λ l. IsPassOf l.0 l.1 × IsOutside l.1) }
        ensures seen { IfOk result (λ l.
            (seen l.1 ≡ unmarked (S.history state)) × (label l.1 ≡ Some (S.label state))) }
        ensures marks { IfOk result (λ l. (mark l.1 ≡ 0) × (given l.1 ≡ 0) × (joined l.1 ≡ [])) }
    {
        let about = Snapshot::of(&state);
        let count = state.len();
        let Ok(mut slots) = Vec::with_capacity(alloc, 1) else {
            return Err(NoMemory);
        };
        slots.push_reserved(Some(state));
        match Table::new(alloc, &[count, 0, 0, 0, 0], slots, &about) {
            Ok((table, seat)) => Ok((
                HistoryLock { table },
                Pass {
                    seat,
                    count,
                    splits: 0,
                },
            )),
            Err(_) => Err(NoMemory),
        }
    }

    /// A law: in every state that a lock can be in, a whole pass is the only one; each other pass was joined into it.
    pub fn whole_pass_law()
        ensures alone { (name : S.Label) → WholeIsAlone S.history S.label name }
    {}

    /// Waits until the state is free, and takes it. Its history is what the pass has seen, and then entries by others.
    /// O(1), beside the waiting. Takes no memory.
    pub fn enter<R: Wait>(&self, rt: &R, pass: &mut Pass<S>) -> S
        requires lock { IsPassOf self.now pass.old }
        requires outside { IsOutside pass.old }
        ensures pass { IsSame pass.old pass.new × IsInside pass.new }
        ensures seen { Follows (own_marks pass.old) (seen pass.old) (seen pass.new) }
        ensures state { (S.history result ≡ entries (seen pass.new))
            × (label pass.old ≡ Some (S.label result)) }
    {
        let shared = &self.table.shared;
        self.take_turn(rt, &mut pass.seat);
        let slot = shared.exchange(&mut pass.seat, 0, None);
        pass.count = shared.load::<ReadCount>(&mut pass.seat, COUNT);
        let Some(state) = slot else { unreachable!() };
        state
    }

    // Counts the entry that the state has more than was seen, if there is one.
    fn count_new(&self, seat: &mut SeatOf<S>, is_longer: bool)
        requires lock { seat.old.table_id ≡ self.now.table.shared.table_id }
        requires carries { Carries S.label seat.old.me }
        requires history { MayAdd is_longer (in_slot S.history seat.old.me.1) seat.old.me.0.seen }
        ensures lock { (seat.new.table_id ≡ seat.old.table_id) × (seat.new.id ≡ seat.old.id) }
        ensures catches { Catches S.history seat.old.me seat.new.me }
    {
        if !is_longer {
            return;
        }
        self.table.shared.fetch_add::<CountEntry>(seat, COUNT, 1);
    }

    /// Gives the state back as it was entered, or with one entry more, which then has the mark of the pass. The pass has
    /// then seen the whole history. O(1); takes no memory and waits for nobody.
    pub fn leave(&self, pass: &mut Pass<S>, state: S)
        requires lock { IsPassOf self.now pass.old }
        requires inside { IsInside pass.old }
        requires label { label pass.old ≡ Some (S.label state) }
        requires history { MayLeave (S.history state) pass.old }
        ensures pass { IsSame pass.old pass.new × IsOutside pass.new }
        ensures seen { AddsOneAtMost pass.old pass.new }
        ensures state { S.history state ≡ entries (seen pass.new) }
    {
        let is_longer = state.len() > pass.count;
        self.table.shared.exchange(&mut pass.seat, 0, Some(state));
        self.count_new(&mut pass.seat, is_longer);
        self.pass_on(&mut pass.seat);
    }

    /// Splits a pass off the first one. It has seen as much, and no entry that it has seen bears its mark. O(1). No memory
    /// is wanted: it answers `NoMemory` exactly where 2^64 - 2 passes were split off, and changes nothing then.
    pub fn split(&self, alloc: Global, pass: &mut Pass<S>) -> Result<Pass<S>, NoMemory>
        requires lock { IsPassOf self.now pass.old }
        requires first { IsFirst pass.old × IsOutside pass.old }
        ensures ok { IfOk result (λ p. IsPassOf self.now p × IsOutside p
            × (seen p ≡ seen pass.old) × (label p ≡ label pass.old)
            × (mark p ≡ given pass.old + 1) × (given p ≡ 0) × (joined p ≡ [])) }
        ensures pass { OnOk result (IsPassOf self.now pass.new × IsOutside pass.new
            × (seen pass.new ≡ seen pass.old) × (label pass.new ≡ label pass.old)
            × (mark pass.new ≡ mark pass.old) × (given pass.new ≡ given pass.old + 1)
            × (joined pass.new ≡ joined pass.old)) }
        ensures new { IfOk result (λ p. HaveMarksUpTo (given pass.old) (seen p)) }
        ensures full { IsErr result ↔ (2 ^ 64 - 2 ≤ given pass.old) }
        ensures err { OnErr result (pass.new ≡ pass.old) }
    {
        let _ = alloc;
        if pass.splits >= u64::MAX - 1 {
            return Err(NoMemory);
        }
        self.table.shared.load::<Recall>(&mut pass.seat, COUNT);
        let seat = self.table.shared.split_seat::<SplitOff>(&mut pass.seat);
        pass.splits += 1;
        Ok(Pass {
            seat,
            count: 0,
            splits: 0,
        })
    }

    /// Joins a pass into the first one, which has then seen the longer of what both had seen. O(1), and takes no memory.
    pub fn join(&self, pass: &mut Pass<S>, other: Pass<S>)
        requires lock { IsPassOf self.now pass.old × IsPassOf self.now other }
        requires first { IsFirst pass.old × IsOutside pass.old }
        requires other { IsOutside other }
        ensures pass { IsPassOf self.now pass.new × IsOutside pass.new
            × (label pass.new ≡ label pass.old) × (mark pass.new ≡ mark pass.old)
            × (given pass.new ≡ given pass.old) }
        ensures joined { Joins pass.old other pass.new }
    {
        let shared = &self.table.shared;
        shared.join_seat::<JoinIn>(&mut pass.seat, other.seat);
        shared.load::<Meet>(&mut pass.seat, COUNT);
    }

    /// Ends the lock, and gives the state, or answers `InUse`: only where a turn was drawn and not served. A pass that is
    /// inside always gets `InUse`; one that is outside never does where all passes were joined into it. O(1); takes no
    /// memory and waits for nobody. With `InUse` the lock is gone too, and a state that lies in it is dropped.
    pub fn close(self, pass: Pass<S>) -> Result<S, InUse>
        requires lock { IsPassOf self pass }
        requires pass { IsOutside pass ⊎ IsInside pass }
        ensures ok { IfOk result (Extends S.history S.label pass) }
        ensures err { IfErr result (λ r. r.ticket ≢ r.serving) }
        ensures inside { IsInside pass → IsErr result }
        ensures whole { IsWhole pass → IsOutside pass → IsOkAnd result (λ y.
            (S.history y ≡ entries (seen pass)) × AreBy (own_marks pass) (seen pass)) }
    {
        let HistoryLock { table } = self;
        let mut closed = table.close_with(pass.seat);
        let ticket = closed.word(TICKET);
        let serving = closed.word(SERVING);
        let slot = closed.take(0);
        closed.free();
        if ticket != serving {
            return Err(InUse { ticket, serving });
        }
        let Some(state) = slot else { unreachable!() };
        Ok(state)
    }
}
