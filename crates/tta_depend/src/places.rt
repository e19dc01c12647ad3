//! The numbers of the spots of a machine: its places, and the trigger ports of its units.

ghost use Rattle.std.specs.Prelude.{◌≡◌};
ghost use Rattle.tta_moves.specs.Bounds.{Started};
ghost use Rattle.tta_depend.specs.Touched.{spot_number};

use tta_moves::numbers::{PLACES, UNITS};

/// How many spots a machine has at most.
pub const SPOTS: usize = PLACES + UNITS;

/// The number of a unit's trigger port.
pub fn trigger(unit: u8) -> usize
    ensures { result ≡ spot_number (Started unit) }
{
    PLACES + usize::from(unit)
}
