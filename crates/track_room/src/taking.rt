//! What a worker does to a machine.

use crate::NoMemory;
use crate::act::Act;
use crate::take::Take;
use history_model::Author;
use touch_index::SeriesKey;
use track_state::{Published, Question, Redone, Settled, TakenSeries, TrackState};

// The first stale series that nobody claims.
#[derive(Drop)]
pub(crate) struct StaleSeries;

impl Take for StaleSeries {
    ghost use Rattle.track_room.specs.Taking.{IsTaken, TakesSeries};

    type Taken = TakenSeries;

    ghost takes = { TakesSeries };

    ghost knows = { λ x h. IsTaken h x };

    fn take(state: &mut TrackState) -> Result<Option<TakenSeries>, NoMemory> {
        state.track().history_law();
        state.next_stale_series()
    }
}

// The question of the open job of the smallest number that nobody claims.
#[derive(Drop)]
pub(crate) struct OpenQuestion;

impl Take for OpenQuestion {
    ghost use Rattle.track_room.specs.Taking.{IsQuestion, TakesJob};

    type Taken = Question;

    ghost takes = { TakesJob };

    ghost knows = { λ q h. IsQuestion h q };

    fn take(state: &mut TrackState) -> Result<Option<Question>, NoMemory> {
        state.track().history_law();
        state.next_question()
    }
}

// A segmentation is published.
#[derive(Drop)]
pub(crate) struct Publishing {
    pub(crate) author: Author,
    pub(crate) redone: Redone,
}

impl Act for Publishing {
    ghost use Rattle.track_room.specs.{Taking.Publishes, Visits.{DoesOrStays, IsMade}};

    type Told = Result<Published, NoMemory>;

    ghost needs = { λ a w. IsMade a.redone w };

    ghost does = { λ a told w u. DoesOrStays (Publishes a.author a.redone.done) told w u };

    fn act(self, state: &mut TrackState) -> Result<Published, NoMemory> {
        state.publish(self.author, self.redone.done, self.redone.table)
    }
}

// The claim on a series ends.
#[derive(Drop)]
pub(crate) struct Releasing<'a> {
    pub(crate) key: &'a SeriesKey,
}

impl<'a> Act for Releasing<'a> {
    ghost use Rattle.track_room.specs.Taking.{Releases};

    type Told = ();

    ghost needs = { λ a w. Unit {0} };

    ghost does = { λ a told w u. Releases a.key.now w u };

    fn act(self, state: &mut TrackState) {
        state.release(self.key);
    }
}

// What was said of a question is settled.
#[derive(Drop)]
pub(crate) struct Settling<'a> {
    pub(crate) author: Author,
    pub(crate) question: &'a Question,
    pub(crate) status: Option<u8>,
}

impl<'a> Act for Settling<'a> {
    ghost use Rattle.track_state.specs.Work.{history_of};
    ghost use Rattle.track_room.specs.{Taking.{HasJob, Settles}, Visits.DoesOrStays};

    type Told = Result<Settled, NoMemory>;

    ghost needs = { λ a w. HasJob a.question.now.job (history_of w) };

    ghost does = { λ a told w u. DoesOrStays (Settles a.author a.question.now a.status) told w u };

    fn act(self, state: &mut TrackState) -> Result<Settled, NoMemory> {
        state.settle(self.author, self.question, self.status)
    }
}
