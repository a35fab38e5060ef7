//! The penalties of metrics: as they are given, or from the noise of a series.
ghost use Rattle.std.specs.Prelude.{◌≡◌, ◌*◌, ◌^◌, ◌≤◌, max, pos, IfOk, OnErr};
ghost use Rattle.history_model.specs.Entries.{entries_of};
ghost use Rattle.track_model.specs.Forms as forms;
ghost use Rattle.track_model.specs.{Outcomes.Outcome, Publishing.CalibrateComesTo, Tracks.IsStep};

use crate::NoMemory;
use history_model::{Author, Entry, limits_law};
use line_text::{Boxed, Duplicate, Name};
use metric_table::Limit;
use request_model::{Answer, Refusal, Reply};
use series_noise::noise;
use track_model::tune_law;
use track_replay::{MachineState, tune_refusal};

/// `tune M METRIC PENALTY LENGTH`: the metric has this penalty from here on, and this least length, or the one that it has.
/// Logarithmic time.
///
/// Where the metric is too long, or the penalty or the least length out of range, it is refused as reading a request refuses
/// it.
pub fn tune(
    track: &mut MachineState,
    author: Author,
    metric: &Name,
    penalty: i128,
    given: Option<u8>,
) -> Result<Reply, NoMemory>
    ensures step { IfOk result (λ reply. IsStep track.old author
        (forms.tune_to (entries_of track.old.history) metric.now penalty given)
        track.new reply) }
    ensures same { OnErr result (track.new ≡ track.old) }
{
    let least = given.unwrap_or(track.setting(metric).length);
    set(track, author, metric, penalty, least)
}

// The metric has this setting from here on.
fn set(
    track: &mut MachineState,
    author: Author,
    metric: &Name,
    penalty: i128,
    least: u8,
) -> Result<Reply, NoMemory>
    ensures step { IfOk result (λ reply. IsStep track.old author
        (forms.tune (entries_of track.old.history) metric.now penalty least) track.new reply) }
    ensures same { OnErr result (track.new ≡ track.old) }
{
    limits_law();
    tune_law();
    track.history_law();
    if let Some(answer) = tune_refusal(metric, penalty, least) {
        return Ok(track.told(answer));
    }
    if track.len() >= Limit::Steps.most() {
        return Ok(track.told(Answer::Refused(Refusal::Full(Limit::Steps))));
    }
    let answer = Answer::Tuned {
        metric: metric.copy(track.alloc())?,
        penalty,
        length: least,
    };
    let metric = metric.copy(track.alloc())?;
    let penalty = Boxed::new(track.alloc(), penalty)?;
    let entry = Entry::Tune {
        metric,
        penalty,
        length: least,
    };
    let step = track.add(author, entry, 0)?;
    Ok(Reply { step, answer })
}

// The square of the noise, or 1 where that is 0.
fn square_of(noise: u64) -> i128
    requires { noise ≤ 2 * 10 ^ 16 }
    ensures { result ≡ pos (max 1 (noise * noise)) }
{
    if noise == 0 {
        return 1;
    }
    let noise = i128::from(noise);
    noise * noise
}

// So many squares of the noise, of 1 at least.
fn penalty_by(factor: u64, noise: u64) -> i128
    requires factor { factor ≤ 1_000 }
    requires noise { noise ≤ 2 * 10 ^ 16 }
    ensures { result ≡ pos (factor * max 1 (noise * noise)) }
{
    i128::from(factor) * square_of(noise)
}

/// `calibrate M TEST METRIC FACTOR`: the metric has the factor times the square of the series' noise as its penalty
/// from here on; its least length stays. O(n log n + v) time for n positions with v values.
pub fn calibrate(
    track: &mut MachineState,
    author: Author,
    test: &Name,
    metric: &Name,
    factor: u64,
) -> Result<Reply, NoMemory>
    ensures step { IfOk result (λ reply. (o : Outcome)
        × CalibrateComesTo (entries_of track.old.history)
        (record { test = test.now; metric = metric.now }) factor o
        × IsStep track.old author o track.new reply) }
    ensures same { OnErr result (track.new ≡ track.old) }
{
    if factor < 1 || factor > 1_000 {
        return Ok(track.told(Answer::Refused(Refusal::BadPenalty)));
    }
    let Some(points) = track.points_of(test, metric)? else {
        return Ok(track.told(Answer::Refused(Refusal::UnknownSeries)));
    };
    let n = points.len();
    if n < 3 {
        return Ok(track.told(Answer::Refused(Refusal::TooFewPoints(n as u64))));
    }
    let noise = noise(track.alloc(), &points)?;
    let least = track.setting(metric).length;
    set(track, author, metric, penalty_by(factor, noise), least)
}
