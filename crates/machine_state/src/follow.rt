//! The indexes after an entry.
ghost use Rattle.std.specs.Prelude.{◌≡◌, ℕ, List, ◌++◌, [], ◌∷◌, OnOk, OnErr, option_to_list, None};
ghost use Rattle.history_model.specs.{Commits.declaration, Runs.Series};
ghost use Rattle.history_model.specs.declared.entries.Entry.TheVariants as entry;
ghost use Rattle.publication_index.specs.Given.{given};
ghost use Rattle.sample_store.specs.Judged as judge;
ghost use Rattle.sample_store.specs.declared.answers.Accepted.TheVariants as accepted;
ghost use Rattle.series_index.specs.{Seen.seen, Taken.{of_series, with_samples}};
ghost use Rattle.machine_state.specs.{Following.IsFollowed, Indexes.{IsReady, TakesIn, runs_after, given_back, found_run, seen_after, given_after, AreSame}};

use crate::NoMemory;
use crate::following::{Following, follow_job, follow_regression};
use history_model::{Entry, Run, Setting};
use line_text::{Duplicate, Name};
use order_index::OrderIndex;
use publication_index::SettingIndex;
use sample_store::SampleStore;
use series_index::{SeriesIndex, undo_law};
use std::alloc::Global;

// The indexes after an entry, for which they are ready; where there is no memory, what is seen of them stays.
pub fn follow(
    alloc: Global,
    commits: &mut OrderIndex,
    runs: &mut SampleStore,
    series: &mut SeriesIndex,
    settings: &mut SettingIndex,
    following: &mut Following,
    step: u64,
    entry: &Entry,
) -> Result<(), NoMemory>
    requires indexes { IsReady commits.old runs.old following.old entry.now }
    requires series { TakesIn series.old step entry.now }
    ensures commits { OnOk result
        (commits.new ≡ commits.old ++ option_to_list (declaration step entry.now)) }
    ensures runs { OnOk result (runs.new ≡ runs_after step entry.now runs.old) }
    ensures series { OnOk result ((s : Series) → seen s series.new
        ≡ seen_after step entry.now runs.old s (seen s series.old)) }
    ensures settings { OnOk result ((metric : List ℕ) → given metric settings.new
        ≡ given_after entry.now metric (given metric settings.old)) }
    ensures following { OnOk result
        (IsFollowed commits.old entry.now following.old following.new) }
    ensures same { OnErr result (AreSame commits.old commits.new runs.old runs.new
        series.old series.new settings.old settings.new following.old following.new) }
{
    match entry {
        Entry::Commit { number, name } => {
            let number = *number;
            let name = name.copy(alloc)?;
            commits.add(step, number, name)?;
            Ok(())
        }
        Entry::Accept { run } => {
            accept(alloc, runs, series, step, run)?;
            Ok(())
        }
        Entry::Retract { run } => {
            give_back(runs, series, run);
            let _ = runs.retract(step, run);
            Ok(())
        }
        Entry::Tune {
            metric,
            penalty,
            length,
        } => {
            let setting = Setting {
                penalty: *penalty.get(),
                length: *length,
            };
            settings.set(metric, setting)?;
            Ok(())
        }
        Entry::Publish { .. } => Ok(()),
        Entry::Regression { event } => {
            follow_regression(alloc, &mut following.regressions, event)?;
            Ok(())
        }
        Entry::Job { event } => {
            follow_job(alloc, commits, &mut following.jobs, event)?;
            Ok(())
        }
    }
}

// Accepts a run that is new, with its samples in their series; where there is no memory, what is seen stays.
fn accept(
    alloc: Global,
    runs: &mut SampleStore,
    series: &mut SeriesIndex,
    step: u64,
    run: &Run,
) -> Result<(), NoMemory>
    requires new { judge.judged runs.old run.now ≡ accepted.New }
    requires series { TakesIn series.old step (entry.Accept run.now) }
    ensures runs { OnOk result (runs.new
        ≡ runs.old ++ record { step = step; run = run.now; retracted = None } ∷ []) }
    ensures series { OnOk result ((s : Series) → seen s series.new
        ≡ with_samples run.now.commit step (of_series s run.now.samples) (seen s series.old)) }
    ensures same_runs { OnErr result (runs.new ≡ runs.old) }
    ensures same_series { OnErr result ((s : Series) → seen s series.new ≡ seen s series.old) }
{
    undo_law();
    let kept = run.copy(alloc)?;
    series.take_in(run.commit, step, run.samples.as_slice())?;
    if let Err(_) = runs.add(step, kept) {
        series.undo_all(run.commit, step, run.samples.as_slice());
        return Err(NoMemory);
    }
    Ok(())
}

// Takes the samples of the run of that name out of their series.
fn give_back(runs: &SampleStore, series: &mut SeriesIndex, run: &Name)
    ensures { (s : Series) → seen s series.new
        ≡ given_back (found_run run.now runs.now) s (seen s series.old) }
{
    if let Some(stored) = runs.of_name(run) {
        series.take_back(
            stored.run.commit,
            stored.step,
            stored.run.samples.as_slice(),
        );
        return;
    }
}
