//! The questions of open jobs.
ghost use Rattle.std.specs.Prelude.{◌≡◌, IfOk, IsSome, OnErr, ◌==◌, filter, find, not};
ghost use Rattle.history_model.specs.{Entries.entries_of, Jobs.{asked, job_in, jobs}};
ghost use Rattle.track_state.specs.{Questions.{IsQuestion, Settles, TakesNext, is_claimed, jobs_after}, Work.history_of, Asking.IsOpenQuestion};

use crate::NoMemory;
use crate::state::TrackState;
use history_model::{Author, growth_law, jobs_law, publication_law};
use line_text::{Duplicate, Name};
use report_lines::asked as asked_commit;
use std::alloc::Global;
use touch_model::{stale_law, touch_law};
use track_step::{MachineState, Settled, settle};

/// What an open job asks.
#[derive(Clone, Debug, Drop)]
pub struct Question {
    /// The job's number.
    pub job: u64,
    /// The place in its list.
    pub place: u64,
    /// The name of the commit there.
    pub commit: Name,
}

/// An equal question of its own. Constant time.
impl Duplicate for Question {
    fn copy(&self, _alloc: Global) -> Result<Question, NoMemory> {
        self.clone()
    }
}

// The first of some numbers that isn't claimed.
fn first_unclaimed(numbers: &[u64], claimed: &[u64]) -> Option<u64>
    ensures { result ≡ find (λ n. not (is_claimed claimed.now n)) numbers.now }
{
    numbers.iter().copied().find(|n| !claimed.contains(n))
}

// What an open job asks.
fn question_of(track: &MachineState, number: u64) -> Result<Question, NoMemory>
    requires { IsSome (asked number (entries_of track.now.history)) }
    ensures question { IfOk result (λ q. IsQuestion (entries_of track.now.history) q) }
    ensures number { IfOk result (λ q. q.job ≡ number) }
{
    jobs_law();
    track.history_law();
    let Some(job) = track.jobs().get(number) else {
        unreachable!();
    };
    let Some(place) = job.question() else {
        unreachable!();
    };
    let Some(name) = track.commits().name_of(asked_commit(job)) else {
        unreachable!();
    };
    Ok(Question {
        job: number,
        place,
        commit: name.copy(track.alloc())?,
    })
}

/// The question of the open job of the smallest number that isn't among these; none exactly where each open job is.
/// Linear in the open jobs that are, and in these.
pub fn open_question(track: &MachineState, claimed: &[u64]) -> Result<Option<Question>, NoMemory>
    ensures { IfOk result
        (λ found. IsOpenQuestion (entries_of track.now.history) claimed.now found) }
{
    let Some(number) = first_unclaimed(track.jobs().open_numbers(), claimed) else {
        return Ok(None);
    };
    Ok(Some(question_of(track, number)?))
}

// The jobs that are claimed once something was said of a question of one.
fn settle_claims(claimed: &mut Vec<u64>, told: Settled, job: u64)
    ensures { claimed.new.items ≡ jobs_after told job claimed.old.items }
{
    match told {
        Settled::Full => {}
        _ => take_out(claimed, job),
    }
}

// Takes a number out of some.
fn take_out(numbers: &mut Vec<u64>, number: u64)
    ensures { numbers.new.items ≡ filter (λ n. not (n == number)) numbers.old.items }
{
    numbers.retain(|n| *n != number);
}

impl TrackState {
    /// Claims the open job of the smallest number that nobody claims, and gives its question; none exactly where there is
    /// none. Linear in the open jobs that are claimed.
    pub fn next_question(&mut self) -> Result<Option<Question>, NoMemory>
        ensures taken { IfOk result (λ found. TakesNext self.old found self.new) }
        ensures same { OnErr result (self.new ≡ self.old) }
    {
        let Some(question) = open_question(&self.track, &self.claimed)? else {
            return Ok(None);
        };
        self.claimed.push(question.job)?;
        Ok(Some(question))
    }

    /// Says what became of a question: the status of its test, or that none could be had. It is added where the job asks
    /// it still and there is room, and the claim on the job ends, unless there was no room. Linear in the jobs that are
    /// claimed and in the open ones.
    pub fn settle(
        &mut self,
        author: Author,
        question: &Question,
        status: Option<u8>,
    ) -> Result<Settled, NoMemory>
        requires { IsSome (job_in question.now.job (jobs (history_of self.old))) }
        ensures settled { IfOk result
            (λ told. Settles self.old author question.now status told self.new) }
        ensures same { OnErr result (self.new ≡ self.old) }
    {
        publication_law();
        touch_law();
        stale_law();
        let told = settle(
            &mut self.track,
            author,
            question.job,
            question.place,
            status,
        )?;
        self.track.history_law();
        settle_claims(&mut self.claimed, told, question.job);
        Ok(told)
    }
}
