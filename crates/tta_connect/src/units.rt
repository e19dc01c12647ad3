//! The last rule: the units that all words can reach, and what they offer.

ghost use Rattle.std.specs.Prelude.{◌≡◌, ◌&&◌, ℕ, true, Some, None, is_some};
ghost use Rattle.std.specs.Option.{option_map_or};
ghost use Rattle.tta_arch.specs.declared.ends.Source.TheVariants as source;
ghost use Rattle.tta_arch.specs.Joins.{has_bit, has_socket, is_source_on};
ghost use Rattle.tta_arch.specs.declared.parts.Op.TheVariants.{Ldf, Stf};
ghost use Rattle.tta_connect.specs.Coverage.{hub_feeds, is_usable, is_usable_at, into, from};
ghost use Rattle.tta_connect.specs.Coverage.{some_bus, offered};

use crate::calls::offered;
use crate::ends::{from, into, some_bus};
use crate::target_machine::TargetMachine;
use tta_arch::{Machine, Op, Source, Unit, has_socket, has_source_socket, with_unit};

/// Whether a bus leads from the hub into a socket.
fn hub_feeds_over(m: &Machine, hub: u8, socket: u8, bus: usize) -> bool
    ensures { result ≡ (is_source_on m.now bus (from hub)
        && has_socket m.now true (Some socket) bus) }
{
    has_source_socket(m, bus, from(hub)) && has_socket(m, true, Some(socket), bus)
}

/// Whether some bus leads from the hub into a socket.
fn hub_feeds(m: &Machine, hub: u8, socket: u8) -> bool
    ensures { result ≡ hub_feeds m.now hub socket }
{
    let mut buses = 0..m.buses.len();
    buses.any(|bus| hub_feeds_over(m, hub, socket, bus))
}

/// The same of a port that may be left out.
fn hub_feeds_port(m: &Machine, hub: u8, port: Option<u8>) -> bool
    ensures { result ≡ option_map_or (hub_feeds m.now hub) port true }
{
    match port {
        None => true,
        Some(socket) => hub_feeds(m, hub, socket),
    }
}

/// Whether the hub takes what a unit shows, if it shows anything.
fn hub_takes(on: &TargetMachine<'_>, hub: u8, unit: u8, port: Option<u8>) -> bool
    ensures { result ≡ option_map_or
        (λ socket. some_bus on.now.machine.now (source.Shown unit) (into hub) None) port true }
{
    match port {
        None => true,
        Some(_) => some_bus(on, Source::Shown { unit }, into(hub), None),
    }
}

/// Whether the hub is joined to each port of a unit.
fn is_usable(on: &TargetMachine<'_>, hub: u8, unit: u8, v: &Unit) -> bool
    ensures { result ≡ is_usable on.now.machine.now hub unit v.now }
{
    hub_feeds_port(on.machine, hub, v.operand)
        && hub_feeds(on.machine, hub, v.trigger)
        && hub_takes(on, hub, unit, v.result)
}

/// The units that all words can reach.
pub fn usable_units(on: &TargetMachine<'_>, hub: u8) -> u32
    ensures { (unit : ℕ) → has_bit result unit ≡ is_usable_at on.now.machine.now hub unit }
{
    let mut units = 0;
    let m = on.machine;
    for (unit, v) in m.units.as_slice().iter().enumerate() {
        if is_usable(on, hub, unit as u8, v) {
            units = with_unit(units, unit);
        }
    }
    units
}

/// Whether some units load and store words of the frame space.
pub fn has_frame(m: &Machine, usable: u32) -> bool
    ensures { result ≡ (is_some (offered m.now usable Ldf) && is_some (offered m.now usable Stf)) }
{
    offered(m, usable, Op::Ldf).is_some() && offered(m, usable, Op::Stf).is_some()
}
