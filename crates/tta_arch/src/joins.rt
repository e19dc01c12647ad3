//! Which sources, destinations and guards a bus has.

ghost use Rattle.std.specs.Prelude.{◌≡◌, true, filter, IfOk};
ghost use Rattle.tta_arch.specs.Joins.{has_bit, within, source_socket, dest_socket, has_socket};
ghost use Rattle.tta_arch.specs.Joins.{is_dest_on};
ghost use Rattle.tta_arch.specs.Fields.{guards_on};
ghost use Rattle.tta_arch.specs.Layout.{has_source_socket};

use crate::ends::{Dest, Source};
use crate::machine::Machine;
use crate::parts::Guard;
use std::alloc::{AllocError, Global};
use tta_list::entry_at;

/// Whether a set of buses has this one. Bit k of the set stands for bus k.
pub fn has_bus(buses: u16, bus: usize) -> bool
    ensures { result ≡ has_bit buses bus }
{
    if bus < 16 {
        (buses >> bus) % 2 == 1
    } else {
        false
    }
}

/// A socket, where the index of a register is below the size of its file.
fn within(index: u8, size: u8, socket: u8) -> Option<u8>
    ensures { result ≡ within index size socket }
{
    if index < size { Some(socket) } else { None }
}

/// The socket that a source is joined to, where the machine has such a source.
fn source_socket(m: &Machine, src: Source) -> Option<u8>
    ensures { result ≡ source_socket m.now src }
{
    match src {
        Source::Reg { file, index } => match entry_at(m.files.as_slice(), file) {
            Some(f) => within(index, f.size, f.out),
            None => None,
        },
        Source::Imm { unit, index } => match entry_at(m.imms.as_slice(), unit) {
            Some(u) => within(index, u.size, u.out),
            None => None,
        },
        Source::Shown { unit } => match entry_at(m.units.as_slice(), unit) {
            Some(u) => u.result,
            None => None,
        },
        Source::Ra => m.control.ra,
        Source::Value(_) => None,
    }
}

/// The socket that a destination is joined to, where the machine has such a destination.
fn dest_socket(m: &Machine, dst: Dest) -> Option<u8>
    ensures { result ≡ dest_socket m.now dst }
{
    match dst {
        Dest::Reg { file, index } => match entry_at(m.files.as_slice(), file) {
            Some(f) => within(index, f.size, f.into),
            None => None,
        },
        Dest::Operand { unit } => match entry_at(m.units.as_slice(), unit) {
            Some(u) => u.operand,
            None => None,
        },
        Dest::Trigger { unit, op } => match entry_at(m.units.as_slice(), unit) {
            Some(u) if (op as usize) < u.ops.len() => Some(u.trigger),
            _ => None,
        },
        Dest::Jump | Dest::Call | Dest::Halt => Some(m.control.trigger),
    }
}

/// Whether a bus stands in a socket of this direction.
pub fn has_socket(m: &Machine, input: bool, socket: Option<u8>, bus: usize) -> bool
    ensures { result ≡ has_socket m.now input socket bus }
{
    let Some(k) = socket else {
        return false;
    };
    match entry_at(m.sockets.as_slice(), k) {
        None => false,
        Some(s) => s.input == input && has_bus(s.buses, bus),
    }
}

/// Whether a bus can bring its word to a destination.
pub fn is_dest_on(m: &Machine, bus: usize, dst: Dest) -> bool
    ensures { result ≡ is_dest_on m.now bus dst }
{
    has_socket(m, true, dest_socket(m, dst), bus)
}

/// Whether a bus can take its word from a source that is no short word.
pub fn has_source_socket(m: &Machine, bus: usize, src: Source) -> bool
    ensures { result ≡ has_source_socket m.now bus src }
{
    has_socket(m, false, source_socket(m, src), bus)
}

/// Those of some sources, none of them a short word, that a bus has.
pub fn sources_on(
    alloc: Global,
    m: &Machine,
    bus: usize,
    all: &[Source],
) -> Result<Vec<Source>, AllocError>
    ensures { IfOk result (λ v. v.items ≡ filter (has_source_socket m.now bus) all.now) }
{
    all.iter()
        .copied()
        .filter(|src| has_source_socket(m, bus, *src))
        .collect(alloc)
}

/// Those of some destinations that a bus has.
pub fn dests_on(
    alloc: Global,
    m: &Machine,
    bus: usize,
    all: &[Dest],
) -> Result<Vec<Dest>, AllocError>
    ensures { IfOk result (λ v. v.items ≡ filter (is_dest_on m.now bus) all.now) }
{
    all.iter()
        .copied()
        .filter(|dst| is_dest_on(m, bus, *dst))
        .collect(alloc)
}

/// The guards of a bus in the order of their codes.
pub fn guards_on(alloc: Global, m: &Machine, bus: usize) -> Result<Vec<Guard>, AllocError>
    ensures { IfOk result (λ v. v.items ≡ guards_on m.now bus) }
{
    m.guards
        .as_slice()
        .iter()
        .copied()
        .filter(|g| usize::from(g.bus) == bus)
        .collect(alloc)
}
