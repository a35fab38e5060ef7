//! The lines of series.
ghost use Rattle.std.specs.Prelude.{◌≡◌, IfOk, length};
ghost use Rattle.segment_model.specs.Segments.{values_of};
ghost use Rattle.history_model.specs.Runs.{Series};
ghost use Rattle.publication_index.specs.Kept.{kept};
ghost use Rattle.series_index.specs.Seen.{seen};
ghost use Rattle.track_model.specs.Reports.{series_in};
ghost use Rattle.report_lines.specs.SeriesLines.{AreLines, IsLine, IsOfKept};

use crate::NoMemory;
use change_list::last_centre;
use line_text::Duplicate;
use publication_index::PublicationIndex;
use report_model::{SeriesLine, SeriesLines};
use series_index::{SeriesIndex, SeriesName};
use std::alloc::Global;

/// A line for each series that ever had a sample, by the bytes of test, then metric. Places the samples that wait in the
/// series, which changes nothing that is seen of them. Linear in the known series and in the values of the last
/// segmentation of each, but for look-ups and for what is placed.
pub fn series_lines(
    alloc: Global,
    series: &mut SeriesIndex,
    published: &PublicationIndex,
) -> Result<SeriesLines, NoMemory>
    ensures lines { IfOk result (λ lines. AreLines series.old published.now lines) }
    ensures same { (s : Series) → seen s series.new ≡ seen s series.old }
{
    let known = series.known()?;
    let names = known.as_slice();
    let mut lines = SeriesLines::new(alloc);
    for name in names {
        lines.push(line(alloc, series, published, name)?)?;
    }
    Ok(lines)
}

// The line of a series.
fn line(
    alloc: Global,
    series: &mut SeriesIndex,
    published: &PublicationIndex,
    name: &SeriesName,
) -> Result<SeriesLine, NoMemory>
    ensures named { IfOk result (λ line. series_in line ≡ name.now) }
    ensures is { IfOk result (λ line. IsLine series.old published.now line) }
    ensures same { (s : Series) → seen s series.new ≡ seen s series.old }
{
    let samples = live_samples(series, name);
    let positions = series.position_count(name.test(), name.metric())? as u64;
    let (changes, centre) = last(alloc, published, name)?;
    Ok(SeriesLine {
        test: name.test().copy(alloc)?,
        metric: name.metric().copy(alloc)?,
        samples,
        positions,
        changes,
        centre,
    })
}

// How many live samples a series has.
fn live_samples(series: &SeriesIndex, name: &SeriesName) -> u64
    ensures { result ≡ length (values_of (seen name.now series.now).points) }
{
    match series.get(name.test(), name.metric()) {
        Some(tracked) => tracked.points.count() as u64,
        None => 0,
    }
}

// How many cuts a series' last segmentation has, and the centre of its last segment.
fn last(
    alloc: Global,
    published: &PublicationIndex,
    name: &SeriesName,
) -> Result<(Option<u64>, Option<i64>), NoMemory>
    ensures { IfOk result (λ last. IsOfKept (kept name.now published.now) last.0 last.1) }
{
    match published.get(name.test(), name.metric()) {
        Some(done) => {
            let changes = done.cert.cuts.len() as u64;
            let centre = last_centre(alloc, done)?;
            Ok((Some(changes), centre))
        }
        None => Ok((None, None)),
    }
}
