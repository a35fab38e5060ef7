//! Where a machine stands in a room.
ghost use Rattle.std.specs.{Prelude.{◌≡◌, IfSome, IfNone, bytes_eq, false}, List.list_any};
ghost use Rattle.track_room.specs.Asked.{IsNamedAt, names_of};

use crate::machine::MachineLock;
use line_text::Name;

// The place of the first machine of this name; none exactly where there is none. Linear in the machines.
pub(crate) fn place_of(machines: &[MachineLock], machine: &Name) -> Option<usize>
    ensures some { IfSome result (IsNamedAt machine.now machines.now) }
    ensures none { IfNone result
        (list_any (λ name. bytes_eq name machine.now) (names_of machines.now) ≡ false) }
{
    for (i, lock) in machines.iter().enumerate() {
        if lock.is_of(machine) {
            return Some(i);
        }
    }
    None
}
