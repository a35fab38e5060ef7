//! The series that is taken next.
ghost use Rattle.std.specs.Prelude.{◌≡◌, IfNone, IfOk, IfSome, OnErr, OnOk, length};
ghost use Rattle.history_model.specs.{Entries.entries_of, Publications.last_publication};
ghost use Rattle.touch_model.specs.Stale as stale;
ghost use Rattle.track_state.specs.{Covering.{Covers, MakeSame}, Taking.{IsBegunOn, Takes, TakesStale}, Work.{IsFirstBy, IsSame, NoneIsOpenBy, series_of}};
ghost use Rattle.track_step.specs.Snapshots.{IsSnapshot};

use crate::NoMemory;
use crate::catching::catch_up;
use crate::state::TrackState;
use line_text::Name;
use touch_index::{Claim, SeriesKey, TouchIndex};
use track_step::{MachineState, Snapshot, take_snapshot};

/// A series that somebody took: its name, and what the history has of it.
#[derive(Drop)]
pub struct TakenSeries {
    /// Its name.
    pub key: SeriesKey,
    /// Its positions and its setting.
    pub snapshot: Snapshot,
}

// Whether a step lies behind the version of the series' last publication.
fn is_behind(track: &MachineState, key: &SeriesKey, step: u64) -> bool
    ensures { result ≡ stale.is_behind step
        (last_publication (series_of key.now) (entries_of track.now.history)) }
{
    match track.published(&key.test, &key.metric) {
        Some(done) => done.version < step,
        None => true,
    }
}

// The first open series, where all entries were looked at. Marks of fresh series on the way are taken away.
fn first_open(track: &MachineState, touched: &mut TouchIndex) -> Result<Option<SeriesKey>, NoMemory>
    requires { Covers (entries_of track.now.history)
        (length (entries_of track.now.history)) touched.old }
    ensures covers { Covers (entries_of track.now.history)
        (length (entries_of track.now.history)) touched.new }
    ensures claims { MakeSame (entries_of track.now.history) touched.old touched.new }
    ensures some { IfOk result (λ found. IfSome found
        (λ key. IsFirstBy (entries_of track.now.history) touched.new (series_of key))) }
    ensures none { IfOk result
        (λ found. IfNone found (NoneIsOpenBy (entries_of track.now.history) touched.new)) }
{
    loop {
        let Some((key, step)) = touched.first_free()? else {
            return Ok(None);
        };
        if is_behind(track, &key, step) {
            return Ok(Some(key));
        }
        touched.remove(&key);
    }
}

// Whether a series is stale, where all entries were looked at.
fn is_stale(track: &MachineState, touched: &TouchIndex, key: &SeriesKey) -> bool
    requires { Covers (entries_of track.now.history)
        (length (entries_of track.now.history)) touched.now }
    ensures { result ≡ stale.is_stale (entries_of track.now.history) (series_of key.now) }
{
    match touched.get(key) {
        Some(mark) => is_behind(track, key, mark.touched),
        None => false,
    }
}

impl TrackState {
    /// What the machine has of a series, where it is stale; none exactly where it isn't. All claims stay. Linear in the
    /// samples that came since the last search and in the series' values, but for look-ups.
    pub fn stale_snapshot(
        &mut self,
        test: &Name,
        metric: &Name,
    ) -> Result<Option<Snapshot>, NoMemory>
        ensures taken { IfOk result (λ found. TakesStale self.old
            (record { test = test.now; metric = metric.now }) found self.new) }
        ensures same { OnErr result (IsSame self.old self.new) }
    {
        catch_up(&self.track, &mut self.touched, &mut self.seen)?;
        let key = SeriesKey::of(self.track.alloc(), test, metric)?;
        if !is_stale(&self.track, &self.touched, &key) {
            return Ok(None);
        }
        let Some(snapshot) = take_snapshot(&mut self.track, test, metric)? else {
            unreachable!();
        };
        Ok(Some(snapshot))
    }

    /// What the machine has of a series; none exactly where it isn't known. The table of its last publication goes with it,
    /// where that is home and has the present setting. All claims stay. One step for 128 positions, but for look-ups and for
    /// samples that came since the series was last read.
    pub fn snapshot(&mut self, test: &Name, metric: &Name) -> Result<Option<Snapshot>, NoMemory>
        ensures snapshot { IfOk result (IsSnapshot self.old.track
            (record { test = test.now; metric = metric.now })) }
        ensures taken { OnOk result (IsBegunOn self.old
            (record { test = test.now; metric = metric.now }) self.new) }
        ensures same { OnErr result (self.new ≡ self.old) }
    {
        take_snapshot(&mut self.track, test, metric)
    }

    /// Claims the first stale series that nobody claims, by test and metric, and gives what the machine has of it; none
    /// exactly where there is none. Linear in the samples that came since the last search, in the series that became
    /// fresh since, in the claims that stand and in the series' values, but for look-ups.
    pub fn next_stale_series(&mut self) -> Result<Option<TakenSeries>, NoMemory>
        ensures taken { IfOk result (λ found. Takes self.old found self.new) }
        ensures same { OnErr result (IsSame self.old self.new) }
    {
        catch_up(&self.track, &mut self.touched, &mut self.seen)?;
        let Some(key) = first_open(&self.track, &mut self.touched)? else {
            return Ok(None);
        };
        let Some(snapshot) = take_snapshot(&mut self.track, &key.test, &key.metric)? else {
            unreachable!();
        };
        self.touched.set_claim(&key, Claim::Taken);
        Ok(Some(TakenSeries { key, snapshot }))
    }
}
