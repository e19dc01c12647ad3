//! What one unit alone may serve.

ghost use Rattle.std.specs.Prelude.{◌≡◌, ◌&&◌};
ghost use Rattle.tta_machine.specs.Declarations.{has_op, has_other, is_served};
ghost use Rattle.tta_machine.specs.Services.{serves};

use tta_arch::{Op, Unit};

/// What a machine has once.
#[derive(Clone, Copy)]
pub enum Service {
    /// The data space.
    Data,
    /// The frame space.
    Frame,
    /// The input and the output.
    Streams,
}

/// Whether the operation serves a space or the streams that a unit other than the one at this
/// place serves already.
pub fn is_served(units: &[Unit], place: usize, op: Op) -> bool
    ensures { result ≡ is_served units.now place op }
{
    is_served_of(units, place, op, Service::Data)
        || is_served_of(units, place, op, Service::Frame)
        || is_served_of(units, place, op, Service::Streams)
}

/// Whether an operation is of a service that another unit has.
fn is_served_of(units: &[Unit], place: usize, op: Op, service: Service) -> bool
    ensures { result ≡ (serves service op && has_other (serves service) place 0 units.now) }
{
    serves(service, op) && has_other(service, place, units)
}

/// Whether a unit other than the one at this place serves it.
fn has_other(service: Service, place: usize, units: &[Unit]) -> bool
    ensures { result ≡ has_other (serves service) place 0 units.now }
{
    for (at, unit) in units.iter().enumerate() {
        if at != place && has_op(service, unit) {
            return true;
        }
    }
    false
}

/// Whether a unit has an operation of a service.
fn has_op(service: Service, unit: &Unit) -> bool
    ensures { result ≡ has_op (serves service) unit.now }
{
    unit.ops
        .as_slice()
        .iter()
        .any(|offered| serves(service, offered.op))
}

/// Whether an operation is of a service.
fn serves(service: Service, op: Op) -> bool
    ensures { result ≡ serves service op }
{
    match service {
        Service::Data => matches!(op, Op::Ldw | Op::Stw),
        Service::Frame => matches!(op, Op::Ldf | Op::Stf),
        Service::Streams => matches!(op, Op::Out | Op::Take),
    }
}
