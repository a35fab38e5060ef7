//! What is done to a machine between entering its lock and leaving it.
ghost use Rattle.track_state.specs.Work.{Work};
ghost use Rattle.track_room.specs.Visits.{Grows};

use track_state::TrackState;

// Something that is done to a machine's state while its lock is held.
pub(crate) trait Act {
    // What comes of it.
    type Told;

    // What it needs of the state.
    ghost needs: { Self → Work → Type 0 };

    // What it tells, and does to the state.
    ghost does: { Self → Self.Told → Work → Work → Type 0 };

    // Does it. The history grows by one entry at most.
    fn act(self, state: &mut TrackState) -> Self::Told
        requires { needs self state.old }
        ensures does { does self result state.old state.new }
        ensures grows { Grows state.old.track state.new.track };
}
