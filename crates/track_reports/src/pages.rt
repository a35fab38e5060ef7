//! The pages of a machine.
ghost use Rattle.std.specs.Prelude.{◌≡◌, IfOk};
ghost use Rattle.history_model.specs.Entries.{entries_of};
ghost use Rattle.track_model.specs.{Outcomes.Outcome, Reports.{AreSeriesLines, ReportComesTo}, Tracks.IsTold};

use crate::NoMemory;
use history_model::{jobs_law, regressions_law};
use line_text::Duplicate;
use machine_state::MachineState;
use report_lines::{job_lines, regression_lines};
use report_model::{Pages, SeriesLines};
use request_model::{Answer, Boxed, Reply};

// The pages of the machine with these lines of series.
fn report_with(track: &MachineState, json: bool, series: SeriesLines) -> Result<Reply, NoMemory>
    requires { AreSeriesLines (entries_of track.now.history) series }
    ensures { IfOk result (λ reply. (o : Outcome)
        × ReportComesTo (entries_of track.now.history) track.now.machine json o
        × IsTold track.now o reply) }
{
    regressions_law();
    jobs_law();
    track.history_law();
    let machine = track.machine().copy(track.alloc())?;
    let regressions = regression_lines(track.alloc(), track.commits(), track.regressions())?;
    let jobs = job_lines(track.alloc(), track.commits(), track.jobs())?;
    let pages = Pages {
        machine,
        step: track.len(),
        json,
        series,
        regressions,
        jobs,
    };
    let pages = Boxed::new(track.alloc(), pages)?;
    Ok(track.told(Answer::Report { pages }))
}

/// `report M`: the pages of the machine; adds nothing. Linear in the lines and in the values of what was published last,
/// but for look-ups and for samples that came since their series was last read.
pub fn report(track: &mut MachineState, json: bool) -> Result<Reply, NoMemory>
    ensures step { IfOk result (λ reply. (o : Outcome)
        × ReportComesTo (entries_of track.old.history) track.old.machine json o
        × IsTold track.old o reply) }
    ensures same { track.new ≡ track.old }
{
    let series = track.series_lines()?;
    report_with(track, json, series)
}
