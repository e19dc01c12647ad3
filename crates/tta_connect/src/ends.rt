//! Which buses lead to the hub and from it.

ghost use Rattle.std.specs.Prelude.{◌≡◌};
ghost use Rattle.tta_connect.specs.Coverage.{some_bus, from, into};

use crate::target_machine::TargetMachine;
use tta_arch::{Dest, GuardRef, Source};

/// The first register of a file as a source.
pub fn from(file: u8) -> Source
    ensures { result ≡ from file }
{
    Source::Reg { file, index: 0 }
}

/// The first register of a file as a destination.
pub fn into(file: u8) -> Dest
    ensures { result ≡ into file }
{
    Dest::Reg { file, index: 0 }
}

/// Whether some bus joins the ends of a move, with its guard.
pub fn some_bus(on: &TargetMachine<'_>, src: Source, dst: Dest, guard: Option<GuardRef>) -> bool
    ensures { result ≡ some_bus on.now.machine.now src dst guard }
{
    let m = on.machine;
    let mut buses = 0..m.buses.len();
    buses.any(|bus| on.net.joins(m, bus as u8, &src, &dst, &guard))
}
