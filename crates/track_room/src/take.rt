//! Work that is taken of a machine, of one kind or another.
ghost use Rattle.std.specs.Prelude.{◌≡◌, IfOk, IfSome, List, Option};
ghost use Rattle.history_model.specs.declared.entries.Entry.{Entry};
ghost use Rattle.track_state.specs.Work.{Work, history_of};
ghost use Rattle.track_room.specs.{Sights.{SeesMore, Visits}, Taking.seen_of, Visits.{DoesOrStays, Stays}};

use crate::NoMemory;
use crate::act::Act;
use crate::machine::{MachineLock, MachinePass};
use std::marker::PhantomData;
use std::sync::Wait;
use track_state::TrackState;

// Work of one kind.
pub(crate) trait Take {
    // What is taken.
    type Taken;

    // It is taken of a state; or there was nothing to take.
    ghost takes: { Option Self.Taken → Work → Work → Type 0 };

    // What is known of it by the history.
    ghost knows: { Self.Taken → List Entry → Type 0 };

    // Takes it of a state, if there is some.
    fn take(state: &mut TrackState) -> Result<Option<Self::Taken>, NoMemory>
        ensures taken { DoesOrStays takes result state.old state.new }
        ensures stays { Stays state.old state.new }
        ensures known { IfOk result (λ found. IfSome found (λ x. knows x (history_of state.new))) };
}

// Work of this kind is taken.
#[derive(Drop)]
struct Taking<T> {
    kind: PhantomData<T>,
}

impl<T: Take> Act for Taking<T> {
    ghost use Rattle.std.specs.Prelude.{IfOk, IfSome};
    ghost use Rattle.track_state.specs.Work.{history_of};
    ghost use Rattle.track_room.specs.Visits.{DoesOrStays, Stays};

    type Told = Result<Option<T::Taken>, NoMemory>;

    ghost needs = { λ a w. Unit {0} };

    ghost does = { λ a told w u. DoesOrStays T.takes told w u × Stays w u
        × IfOk told (λ found. IfSome found (λ x. T.knows x (history_of u))) };

    fn act(self, state: &mut TrackState) -> Result<Option<T::Taken>, NoMemory> {
        T::take(state)
    }
}

impl MachineLock {
    // Takes work of a kind, if there is some.
    pub(crate) fn take<R: Wait, T: Take>(
        &self,
        rt: &R,
        pass: &mut MachinePass,
    ) -> Result<Option<T::Taken>, NoMemory>
        requires lock { pass.old.home ≡ self.now }
        ensures sees { SeesMore pass.old pass.new }
        ensures taken { IfOk result (λ found. Visits (T.takes found) pass.old pass.new) }
        ensures known { IfOk result (λ found. IfSome found (λ x. T.knows x (seen_of pass.new))) }
    {
        let taking: Taking<T> = Taking { kind: PhantomData };
        self.visit(rt, pass, taking)
    }
}
