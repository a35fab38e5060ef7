//! What becomes of a series that was taken.
ghost use Rattle.std.specs.Prelude.{◌≡◌, IfOk, OnErr, OnOk, length, true, nat_lt, if◌then◌else◌, None};
ghost use Rattle.history_model.specs.{Entries.entries_of, Publications.last_publication, Runs.is_known};
ghost use Rattle.publication_index.specs.Standing.{table_for};
ghost use Rattle.touch_index.specs.declared.mark.Claim.TheVariants as claim;
ghost use Rattle.track_step.specs.{Made.IsMadeFrom, Beside.IsBegun, Published.Published, Publications.later};
ghost use Rattle.track_state.specs.{Covering.{Covers, IsMarked, IsRefusedBy, MakeSame}, Taking.{Finishes, IsBegunOn, Publishes}, Work.{ClaimBecomes, IsSame, history_of, series_of}};

use crate::NoMemory;
use crate::catching::catch_up;
use crate::state::TrackState;
use history_model::{Author, growth_law, publication_law};
use line_text::Name;
use pelt_core::Table;
use request_model::Reply;
use segment_cost::{Done, Square};
use touch_index::{Claim, Mark, SeriesKey, TouchIndex};
use touch_model::{stale_law, touch_law};
use track_step::{Begun, Finished, MachineState, Published, begin, finish};

// The step that the mark of a known series has; where it has none, it is fresh and is given one.
fn marked(track: &MachineState, touched: &mut TouchIndex, key: &SeriesKey) -> Result<u64, NoMemory>
    requires covers { Covers (entries_of track.now.history)
        (length (entries_of track.now.history)) touched.old }
    requires known { is_known (series_of key.now) (entries_of track.now.history) ≡ true }
    ensures covers { Covers (entries_of track.now.history)
        (length (entries_of track.now.history)) touched.new }
    ensures claims { MakeSame (entries_of track.now.history) touched.old touched.new }
    ensures mark { IfOk result (λ step. IsMarked touched.new key.now step) }
{
    publication_law();
    track.history_law();
    if let Some(mark) = touched.get(key) {
        return Ok(mark.touched);
    }
    let Some(done) = track.published(&key.test, &key.metric) else {
        unreachable!();
    };
    let step = done.version;
    let mark = Mark {
        touched: step,
        claim: Claim::Free,
    };
    touched.put(key, mark)?;
    Ok(step)
}

// The claim on a series that was touched last in this step, once a limit refused a segmentation of a version: where no
// entry touched it since, nobody takes it again until one does.
fn claim_refused(version: u64, touched: u64) -> Claim
    ensures { result ≡ (if nat_lt version touched then claim.Free else claim.Refused) }
{
    if version < touched {
        Claim::Free
    } else {
        Claim::Refused
    }
}

// A limit refused a segmentation of a version, and no later one was published: notes it where no entry touched the series
// since. All entries are looked at for that.
fn note_refusal(
    track: &MachineState,
    touched: &mut TouchIndex,
    seen: &mut u64,
    key: &SeriesKey,
    version: u64,
) -> Result<(), NoMemory>
    requires covers { Covers (entries_of track.now.history) seen.old touched.old }
    requires known { is_known (series_of key.now) (entries_of track.now.history) ≡ true }
    requires latest { later version
        (last_publication (series_of key.now) (entries_of track.now.history)) ≡ None }
    ensures covers { Covers (entries_of track.now.history) seen.new touched.new }
    ensures refused { OnOk result (IsRefusedBy (entries_of track.now.history) (series_of key.now)
        version touched.old touched.new) }
    ensures same { OnErr result
        (MakeSame (entries_of track.now.history) touched.old touched.new) }
{
    catch_up(track, touched, seen)?;
    let step = marked(track, touched, key)?;
    touched.set_claim(key, claim_refused(version, step));
    Ok(())
}

impl TrackState {
    // Hands in a finished segmentation, and replies.
    fn hand_in(
        &mut self,
        author: Author,
        done: Done,
        table: Table<Square>,
    ) -> Result<Finished, NoMemory>
        requires made { IsMadeFrom (history_of self.old) done }
        requires tabled { table ≡ table_for done }
        ensures published { IfOk result
            (λ end. Publishes self.old author done end.told self.new) }
        ensures step { IfOk result (λ end. Finishes self.old author done self.new end.reply) }
        ensures same { OnErr result (IsSame self.old self.new) }
    {
        growth_law();
        publication_law();
        touch_law();
        stale_law();
        let key = SeriesKey::of(self.track.alloc(), &done.test, &done.metric)?;
        let version = done.version;
        let end = finish(&mut self.track, author, done, table)?;
        self.track.history_law();
        if let Published::Full(_) = end.told {
            note_refusal(
                &self.track,
                &mut self.touched,
                &mut self.seen,
                &key,
                version,
            )?;
            return Ok(end);
        }
        self.touched.set_claim(&key, Claim::Free);
        Ok(end)
    }

    /// Publishes a segmentation that was made from the history, at its version or before, and keeps its table, which is home
    /// then. This ends a claim on its series, unless a limit refused it and no entry touched the series since that version.
    /// Linear in its cuts, but for look-ups; where a limit refuses it, in the samples too that came since the last search.
    pub fn publish(
        &mut self,
        author: Author,
        done: Done,
        table: Table<Square>,
    ) -> Result<Published, NoMemory>
        requires made { IsMadeFrom (history_of self.old) done }
        requires tabled { table ≡ table_for done }
        ensures published { IfOk result (λ told. Publishes self.old author done told self.new) }
        ensures same { OnErr result (IsSame self.old self.new) }
    {
        let end = self.hand_in(author, done, table)?;
        Ok(end.told)
    }

    /// As [`publish`](TrackState::publish), for a request to segment the series: replies as the version that was segmented
    /// gives it.
    pub fn finish(
        &mut self,
        author: Author,
        done: Done,
        table: Table<Square>,
    ) -> Result<Reply, NoMemory>
        requires made { IsMadeFrom (history_of self.old) done }
        requires tabled { table ≡ table_for done }
        ensures step { IfOk result (λ reply. Finishes self.old author done self.new reply) }
        ensures claims { IfOk result (λ reply. (told : Published)
            × Publishes self.old author done told self.new) }
        ensures same { OnErr result (IsSame self.old self.new) }
    {
        let Finished { told: _, reply } = self.hand_in(author, done, table)?;
        Ok(reply)
    }

    /// Begins the segmentation of a series, for a request. The table of its last publication goes with it, where that is
    /// home and has the present setting. All claims stay. Linear in the values of the series, but for samples that came
    /// since it was last read.
    pub fn begin(&mut self, test: &Name, metric: &Name) -> Result<Begun, NoMemory>
        ensures begun { IfOk result (IsBegun self.old.track
            (record { test = test.now; metric = metric.now })) }
        ensures taken { OnOk result (IsBegunOn self.old
            (record { test = test.now; metric = metric.now }) self.new) }
        ensures same { OnErr result (self.new ≡ self.old) }
    {
        begin(&mut self.track, test, metric)
    }

    /// Ends the claim on a series, if there is one. Logarithmic time; takes no memory.
    pub fn release(&mut self, key: &SeriesKey)
        ensures track { self.new.track ≡ self.old.track }
        ensures claims { ClaimBecomes (series_of key.now) claim.Free self.old self.new }
        ensures jobs { self.new.jobs ≡ self.old.jobs }
    {
        self.touched.set_claim(key, Claim::Free);
    }
}
