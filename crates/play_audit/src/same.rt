//! Whether what a request added is the journal's entry.
ghost use Rattle.std.specs.Prelude.{◌≡◌, ◌↔◌, IfOk, IsTrue};
ghost use Rattle.track_entry.specs.Texts.{HasShortMetric, IsEntry};

use crate::NoMemory;
use history_model::{Entry, RegressionEvent};
use journal_walk::is_same_entry;
use std::alloc::Global;
use track_entry::entry_law;

// The most bytes of a metric's name.
const METRIC: usize = 64;

// Whether an entry is one that a line says. Linear in their texts.
pub(crate) fn is_entry(alloc: Global, added: &Entry, said: &Entry) -> Result<bool, NoMemory>
    requires { IsEntry said.now }
    ensures { IfOk result (λ same. IsTrue same ↔ (added.now ≡ said.now)) }
{
    if !has_short_metric(added) {
        return Ok(false);
    }
    entry_law(added);
    is_same_entry(alloc, added, said)
}

// Whether the metric that an entry itself names is short, if it names one.
fn has_short_metric(entry: &Entry) -> bool
    ensures { IsTrue result ↔ HasShortMetric entry.now }
{
    match entry {
        Entry::Tune { metric, .. } => metric.as_str().len() <= METRIC,
        Entry::Publish { publication } => publication.get().metric.as_str().len() <= METRIC,
        Entry::Regression { event } => match event {
            RegressionEvent::Raise { raised } => raised.metric.as_str().len() <= METRIC,
            _ => true,
        },
        _ => true,
    }
}
