//! Why a run can't be retracted, and a metric can't be tuned.
ghost use Rattle.std.specs.Prelude.{◌≡◌};
ghost use Rattle.history_model.specs.Entries.{entries_of};
ghost use Rattle.machine_state.specs.Forms as forms;

use line_text::Name;
use machine_state::MachineState;
use request_model::{Answer, Refusal};

// The most bytes of a metric's name.
const METRIC_LIMIT: usize = 64;

// The greatest penalty.
const PENALTY_LIMIT: i128 = 1_000_000_000_000_000_000_000_000_000_000_000_000;

// The greatest least length of a segment.
const LENGTH_LIMIT: u8 = 64;

// Whether a penalty is in range.
fn is_penalty(penalty: i128) -> bool
    ensures { result ≡ forms.is_penalty penalty }
{
    penalty >= 0 && penalty <= PENALTY_LIMIT
}

// Whether a least length is in range.
fn is_length(least: u8) -> bool
    ensures { result ≡ forms.is_length least }
{
    least >= 1 && least <= LENGTH_LIMIT
}

/// Why a metric can't be tuned so.
pub fn tune_refusal(metric: &Name, penalty: i128, least: u8) -> Option<Answer>
    ensures { result ≡ forms.tune_refusal metric.now penalty least }
{
    if metric.as_str().len() > METRIC_LIMIT {
        return Some(Answer::Refused(Refusal::BadName));
    }
    if !is_penalty(penalty) {
        return Some(Answer::Refused(Refusal::BadPenalty));
    }
    if !is_length(least) {
        return Some(Answer::Refused(Refusal::BadLength));
    }
    None
}

/// What a retraction is answered where it adds nothing.
pub fn retract_refusal(track: &MachineState, run: &Name) -> Option<Answer>
    ensures { result ≡ forms.retract_refusal (entries_of track.now.history) run.now }
{
    let Some(stored) = track.stored_runs().of_name(run) else {
        return Some(Answer::Refused(Refusal::UnknownRun));
    };
    if let Some(step) = stored.retracted {
        return Some(Answer::Refused(Refusal::AlreadyRetracted(step)));
    }
    None
}
