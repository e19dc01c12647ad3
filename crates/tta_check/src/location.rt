//! Places that keep a word.

ghost use Rattle.std.specs.Prelude.{◌≡◌};
ghost use Rattle.std.specs.Option.{option_map};
ghost use Rattle.tta_arch.specs.Effects.{same_place, target_of};
ghost use Rattle.tta_check.specs.Facts.{place_in};
ghost use Rattle.tta_check.specs.States.{place_of};

use tta_arch::Dest;

/// A register, an immediate register, an operand port or the return address.
#[derive(Clone, Copy, Debug)]
pub enum Location {
    Reg { file: u8, index: u8 },
    Imm { unit: u8, index: u8 },
    Operand { unit: u8 },
    Ra,
}

/// Whether two locations are one.
pub fn same_location(a: Location, b: Location) -> bool
    ensures { result ≡ same_place (place_of a) (place_of b) }
{
    match a {
        Location::Reg { file, index } => match b {
            Location::Reg { file: f, index: i } => file == f && index == i,
            _ => false,
        },
        Location::Imm { unit, index } => match b {
            Location::Imm { unit: u, index: i } => unit == u && index == i,
            _ => false,
        },
        Location::Operand { unit } => match b {
            Location::Operand { unit: u } => unit == u,
            _ => false,
        },
        Location::Ra => matches!(b, Location::Ra),
    }
}

/// The location that a destination writes.
pub fn location_in(dst: Dest) -> Option<Location>
    ensures { option_map place_of result ≡ place_in (target_of dst) }
{
    match dst {
        Dest::Reg { file, index } => Some(Location::Reg { file, index }),
        Dest::Operand { unit } => Some(Location::Operand { unit }),
        Dest::Call => Some(Location::Ra),
        Dest::Trigger { .. } | Dest::Jump | Dest::Halt => None,
    }
}
