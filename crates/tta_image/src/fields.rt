//! The fields of a move, written bus by bus.

ghost use Rattle.std.specs.Prelude.{◌≡◌, ◌+◌, ◌≤◌, ◌<◌, ◌%◌, ◌^◌, true, ◌++◌, IfOk, OnOk};
ghost use Rattle.std.specs.List.{position, position_or_len};
ghost use Rattle.tta_arch.specs.Joins.{is_same_guard};
ghost use Rattle.tta_arch.specs.Fields.{same_source};
ghost use Rattle.tta_image.specs.Ranks.{IsInOrder};
ghost use Rattle.tta_image.specs.Fields.{guard_number, dest_number, source_field, slot_field};
ghost use Rattle.tta_image.specs.Fields.{bus_field, left_after};

use crate::search::{place_of_dest, place_of_source};
use crate::sink::{BitSink, without_low};
use crate::starts::Starts;
use std::alloc::AllocError;
use tta_arch::{BusFields, Dest, Guard, GuardRef, Source};
use tta_code::Move;

/// The fields of a bus, and where its sources and destinations are looked for first.
#[derive(Clone, Copy)]
pub struct BusCodes<'a> {
    pub fields: &'a BusFields,
    pub starts: &'a Starts,
}

/// Whether two guards are of one register and one sense.
fn same_guard(a: GuardRef, b: GuardRef) -> bool
    ensures { result ≡ is_same_guard a b }
{
    a.file == b.file && a.index == b.index && a.inverted == b.inverted
}

/// The low bits of a number, so many of them.
fn low_bits(number: u64, count: u32) -> u64
    ensures { result ≡ number % 2 ^ count }
{
    if count < u64::BITS {
        number % (1 << count)
    } else {
        number
    }
}

/// Where a guard stands first in a list.
fn place_of_guard(guards: &[Guard], on: GuardRef) -> Option<usize>
    ensures { result ≡ position (λ g. is_same_guard g.on on) guards.now }
{
    guards.iter().position(|g| same_guard(g.on, on))
}

/// The code of a source.
fn source_code(bus: &BusCodes<'_>, src: Source) -> usize
    requires order { IsInOrder bus.now.fields.now }
    ensures { result ≡ position_or_len (same_source src) bus.now.fields.now.sources }
{
    let sources = bus.fields.sources.as_slice();
    place_of_source(sources, bus.starts.of_source(src), src).unwrap_or(sources.len())
}

/// The code of a guard, 0 for none.
fn guard_code(fields: &BusFields, guard: Option<GuardRef>) -> usize
    ensures { result ≡ guard_number fields.now guard }
{
    let Some(on) = guard else {
        return 0;
    };
    let guards = fields.guards.as_slice();
    1 + place_of_guard(guards, on).unwrap_or(guards.len())
}

/// The code of a destination.
fn dest_code(bus: &BusCodes<'_>, dst: Dest) -> usize
    requires order { IsInOrder bus.now.fields.now }
    ensures { result ≡ dest_number bus.now.fields.now dst }
{
    let dests = bus.fields.dests.as_slice();
    1 + place_of_dest(dests, bus.starts.of_dest(dst), dst).unwrap_or(dests.len())
}

/// Puts a source field at the end.
fn push_source(bus: &BusCodes<'_>, sink: &mut BitSink, src: Source) -> Result<(), AllocError>
    requires order { IsInOrder bus.now.fields.now }
    ensures ok { OnOk result (sink.new ≡ sink.old ++ source_field bus.now.fields.now src) }
{
    let fields = bus.fields;
    if let Source::Value(word) = src {
        sink.push(true)?;
        return sink.push_number(
            low_bits(u64::from(word), fields.short_width),
            fields.payload_width,
        );
    }
    sink.push(false)?;
    sink.push_number(source_code(bus, src) as u64, fields.payload_width)
}

/// Puts the three fields of a slot at the end.
fn push_slot(bus: &BusCodes<'_>, sink: &mut BitSink, slot: Option<Move>) -> Result<(), AllocError>
    requires order { IsInOrder bus.now.fields.now }
    ensures ok { OnOk result (sink.new ≡ sink.old ++ slot_field bus.now.fields.now slot) }
{
    let fields = bus.fields;
    let Some(v) = slot else {
        return sink.push_zeros(fields.width);
    };
    sink.push_number(guard_code(fields, v.guard) as u64, fields.guard_width)?;
    push_source(bus, sink, v.src)?;
    sink.push_number(dest_code(bus, v.dst) as u64, fields.dest_width)
}

/// Puts what the bus has in an instruction at the end: its slot, or the highest bits that are
/// left of the long immediate. Answers how many bits of the long immediate are left after it.
pub fn push_bus(
    bus: &BusCodes<'_>,
    sink: &mut BitSink,
    is_taken: bool,
    left: u32,
    value: u32,
    slot: Option<Move>,
) -> Result<u32, AllocError>
    requires order { IsInOrder bus.now.fields.now }
    requires taken { is_taken ≡ true → bus.now.fields.now.width ≤ left }
    ensures bits { OnOk result
        (sink.new ≡ sink.old ++ bus_field bus.now.fields.now is_taken left value slot) }
    ensures left { IfOk result (λ n. n ≡ left_after bus.now.fields.now is_taken left) }
{
    if is_taken {
        let rest = left - bus.fields.width;
        sink.push_number(without_low(u64::from(value), rest), bus.fields.width)?;
        Ok(rest)
    } else {
        push_slot(bus, sink, slot)?;
        Ok(left)
    }
}
