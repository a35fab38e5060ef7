//! A machine's state, as a lock guards it.
use history_lock::Historied;
use history_model::Placed;
use line_text::Name;
use track_state::TrackState;

/// Whose state a lock guards, and whether the store had the machine. No value of it is made.
pub struct Owner {
    pub machine: Name,
    pub kept: bool,
}

/// A machine's state with its claims in a lock: its history is that of the machine, and it stays the machine's.
#[derive(Drop)]
pub struct Guarded {
    pub work: TrackState,
}

impl Historied for Guarded {
    type Entry = Placed;

    type Label = Owner;

    ghost history = { λ g. g.work.track.history };

    ghost label = { λ g. record { machine = g.work.track.machine; kept = g.work.track.kept } };

    fn len(&self) -> u64 {
        self.work.track().len()
    }
}
