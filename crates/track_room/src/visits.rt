//! What a request does to a machine.
ghost use Rattle.std.specs.Prelude.{◌≡◌, false};

use crate::NoMemory;
use crate::act::Act;
use history_model::Author;
use line_text::Name;
use request_model::{Reply, Request};
use track_state::{Begun, Redone, TrackState};

// A request that segments nothing is answered.
#[derive(Drop)]
pub(crate) struct Answering<'a> {
    pub(crate) author: Author,
    pub(crate) request: &'a Request,
}

impl<'a> Act for Answering<'a> {
    ghost use Rattle.track_model.specs.Counts.{is_segment};
    ghost use Rattle.request_model.specs.Requests.{machine_of};
    ghost use Rattle.track_room.specs.Visits.{Answers, DoesOrStays};

    type Told = Result<Reply, NoMemory>;

    ghost needs = { λ a w. (machine_of a.request.now ≡ w.track.machine)
        × (is_segment a.request.now ≡ false) };

    ghost does = { λ a told w u. DoesOrStays (Answers a.author a.request.now) told w u };

    fn act(self, state: &mut TrackState) -> Result<Reply, NoMemory> {
        state.step(self.author, self.request)
    }
}

// A segmentation is begun.
#[derive(Drop)]
pub(crate) struct Beginning<'a> {
    pub(crate) test: &'a Name,
    pub(crate) metric: &'a Name,
}

impl<'a> Act for Beginning<'a> {
    ghost use Rattle.track_room.specs.Visits.{Begins, DoesOrStays};

    type Told = Result<Begun, NoMemory>;

    ghost needs = { λ a w. Unit {0} };

    ghost does = { λ a told w u. DoesOrStays
        (Begins (record { test = a.test.now; metric = a.metric.now })) told w u };

    fn act(self, state: &mut TrackState) -> Result<Begun, NoMemory> {
        state.track().history_law();
        state.begin(self.test, self.metric)
    }
}

// A segmentation is finished.
#[derive(Drop)]
pub(crate) struct Finishing {
    pub(crate) author: Author,
    pub(crate) redone: Redone,
}

impl Act for Finishing {
    ghost use Rattle.track_room.specs.Visits.{DoesOrStays, Finishes, IsMade};

    type Told = Result<Reply, NoMemory>;

    ghost needs = { λ a w. IsMade a.redone w };

    ghost does = { λ a told w u. DoesOrStays (Finishes a.author a.redone.done) told w u };

    fn act(self, state: &mut TrackState) -> Result<Reply, NoMemory> {
        state.finish(self.author, self.redone.done, self.redone.table)
    }
}
