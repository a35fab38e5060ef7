//! What the types keep of an entry.
ghost use Rattle.std.specs.Prelude.{◌^◌, ◌<◌, ◌≤◌, All, length};
ghost use Rattle.history_model.specs.declared.entries.Entry.TheVariants as entry;
ghost use Rattle.track_entry.specs.{Texts.{HasShortMetric, IsEntry, IsPublication}, Laws.LegalIsShort};

use history_model::{Entry, JobEvent, Publication, RegressionEvent};

/// An entry has a text where the metric that it names itself has at most 64 bytes: the types keep all else. Does nothing:
/// its contract is what it is for.
pub fn entry_law(entry: &Entry)
    ensures { HasShortMetric entry.now → IsEntry entry.now }
{
    match entry {
        Entry::Commit { number, name } => {
            let _number = *number;
            name.bytes_law();
        }
        Entry::Accept { run } => {
            let _commit = run.commit;
            run.run.bytes_law();
            run.samples.limits();
        }
        Entry::Retract { run } => run.bytes_law(),
        Entry::Tune {
            metric,
            penalty,
            length,
        } => {
            let _penalty = *penalty.get();
            let _length = *length;
            metric.bytes_law();
        }
        Entry::Publish { publication } => publication_fits(publication.get()),
        Entry::Regression { event } => regression_fits(event),
        Entry::Job { event } => job_fits(event),
    }
}

/// The metrics that the entries of a legal history name have at most 64 bytes each. Does nothing: its contract is what it
/// is for.
pub fn legal_law()
    ensures { LegalIsShort }
{}

fn publication_fits(p: &Publication)
    ensures { length p.now.metric ≤ 64 → IsPublication p.now }
{
    let _version = p.version;
    let _base = p.base;
    let _total = p.total;
    p.test.bytes_law();
    p.metric.bytes_law();
    numbers_fit(p.cuts.as_slice());
}

fn numbers_fit(numbers: &[u64])
    ensures few { length numbers.now < 2 ^ 64 }
    ensures each { All (λ n. n < 2 ^ 64) numbers.now }
{}

fn regression_fits(event: &RegressionEvent)
    ensures { HasShortMetric (entry.Regression event.now)
        → IsEntry (entry.Regression event.now) }
{
    match event {
        RegressionEvent::Raise { raised } => {
            let _before = raised.before;
            let _after = raised.after;
            raised.test.bytes_law();
            raised.metric.bytes_law();
        }
        RegressionEvent::Move { regression, .. } => {
            let _regression = *regression;
        }
    }
}

fn job_fits(event: &JobEvent)
    ensures { IsEntry (entry.Job event.now) }
{
    match event {
        JobEvent::Begin { lo, hi } => {
            let _lo = *lo;
            let _hi = *hi;
        }
        JobEvent::Answer { job, place, status } => {
            let _job = *job;
            let _place = *place;
            let _status = *status;
        }
        JobEvent::GiveUp { job, place } => {
            let _job = *job;
            let _place = *place;
        }
    }
}
