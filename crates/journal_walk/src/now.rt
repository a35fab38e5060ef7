//! What a series is now.
ghost use Rattle.std.specs.Prelude.{◌≡◌, IfOk};
ghost use Rattle.history_model.specs.Entries.{entries_of};
ghost use Rattle.journal_walk.specs.Versions.{IsNow};

use crate::NoMemory;
use crate::version::Version;
use line_text::Name;
use machine_state::MachineState;

// What a series is now; none exactly where it isn't known.
pub fn version_now(
    track: &mut MachineState,
    test: &Name,
    metric: &Name,
) -> Result<Option<Version>, NoMemory>
    ensures found { IfOk result (IsNow (entries_of track.old.history)
        (record { test = test.now; metric = metric.now })) }
    ensures same { track.new ≡ track.old }
{
    let Some(points) = track.points_of(test, metric)? else {
        return Ok(None);
    };
    let setting = track.setting(metric);
    Ok(Some(Version { points, setting }))
}
