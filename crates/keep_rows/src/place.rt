//! Where a machine stands among others.
ghost use Rattle.std.specs.Prelude.{◌≡◌, IfSome, IfNone, find, None};
ghost use Rattle.track_model.specs.Tracks.{Track};
ghost use Rattle.keep_rows.specs.{Machines.is_track, Places.IsFirstAt};

use line_text::Name;
use track_replay::MachineState;

/// The place of a machine's track, which is its first; none exactly where there is none of that name. Linear in the
/// machines, and takes no memory.
pub fn place_of(machines: &[MachineState], machine: &Name) -> Option<usize>
    ensures some { IfSome result (λ i. (t : Track) × IsFirstAt machine.now machines.now i t) }
    ensures none { IfNone result (find (is_track machine.now) machines.now ≡ None) }
{
    let mut i = 0;
    while i < machines.len() {
        if machines[i].machine() == machine {
            return Some(i);
        }
        i += 1;
    }
    None
}
