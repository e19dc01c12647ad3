//! The wires of a machine, as parts of its circuit.

ghost use Rattle.std.specs.Prelude.{◌≡◌, ◌+◌, ◌<◌, ◌≤◌, ◌^◌, true, [], ◌∷◌, map, length};
ghost use Rattle.std.specs.List.{enumerate_from, flat_map, list_all, range_with_len};
ghost use Rattle.tta_arch.specs.Fields.{numbers, template_width};
ghost use Rattle.tta_arch.specs.Layout.{fields_of};
ghost use Rattle.tta_arch.specs.Rules.{is_unit};
ghost use Rattle.tta_circuit.specs.Circuit as c;
ghost use Rattle.tta_cost.specs.Tally.{wires_put};
ghost use Rattle.tta_hardware.specs.Hardware as h;
ghost use Rattle.tta_hardware.specs.Signals as s;
ghost use Rattle.tta_hardware.specs.Wires as w;

use crate::buses::{bus_acts, bus_word};
use crate::control as ctl;
use crate::control::Streams;
use crate::fields::{dest, long, short};
use crate::on::On;
use crate::parts::{Part, Parts};
use crate::results::port;
use crate::starts::{operand, start, trigger};
use tta_arch::{BusFields, Unit, UnitOp};
use tta_measure::Cost;

/// Puts the code of the guard of a bus, if it has one.
#[tactic(auto, using(crate::proofs::Depths::known))]
fn put_guard(parts: &mut Parts, on: &On<'_>, bus: usize, f: &BusFields)
    requires { f.now ≡ fields_of on.now.m.now bus }
    ensures { let T = on.now.applied.now in let M = on.now.m.now in
        parts.new ≡ wires_put T M
        (map s.Fetched (h.with_bits f.now.guard_width (s.GuardOf bus))) parts.old }
{
    if 0 < f.guard_width {
        parts.put(Part::Instruction, Cost::free());
    }
}

/// Puts the tag of a source, what stands after it, and the word of a short field.
#[tactic(auto, using(crate::proofs::Depths::known))]
fn put_source(parts: &mut Parts, on: &On<'_>, bus: usize)
    ensures { let T = on.now.applied.now in let M = on.now.m.now in
        parts.new ≡ wires_put T M (s.Fetched (s.IsShort bus) ∷ s.Fetched (s.SourceOf bus)
        ∷ s.Fetched (s.ShortOf bus) ∷ []) parts.old }
{
    parts.put(Part::Instruction, Cost::free());
    parts.put(Part::Instruction, Cost::free());
    parts.put(Part::Instruction, short(on, bus));
}

/// Puts the code of the destination of a bus, if it has one.
fn put_dest(parts: &mut Parts, on: &On<'_>, bus: usize, f: &BusFields)
    requires { f.now ≡ fields_of on.now.m.now bus }
    ensures { let T = on.now.applied.now in let M = on.now.m.now in
        parts.new ≡ wires_put T M
        (map s.Fetched (h.with_bits f.now.dest_width (s.DestOf bus))) parts.old }
{
    if 0 < f.dest_width {
        parts.put(Part::Instruction, dest(on, bus, f));
    }
}

/// Puts the fields of a bus.
#[tactic(auto, using(crate::proofs::WireSteps::bus_fields_put))]
fn put_bus_fields(parts: &mut Parts, on: &On<'_>, bus: usize, f: &BusFields)
    requires { f.now ≡ fields_of on.now.m.now bus }
    ensures { let T = on.now.applied.now in let M = on.now.m.now in
        parts.new ≡ wires_put T M (map s.Fetched (h.bus_fields M bus)) parts.old }
{
    put_guard(parts, on, bus, f);
    put_source(parts, on, bus);
    put_dest(parts, on, bus, f);
}

/// Puts the fields of buses, from one on.
fn put_fields_from(parts: &mut Parts, on: &On<'_>, bus: usize, buses: &[BusFields])
    requires room { bus + length buses.now < 2 ^ 64 }
    requires fields { buses.now ≡ map (fields_of on.now.m.now)
        (range_with_len bus (length buses.now)) }
    ensures { let T = on.now.applied.now in let M = on.now.m.now in
        parts.new ≡ wires_put T M (map s.Fetched (flat_map (h.bus_fields M)
        (range_with_len bus (length buses.now)))) parts.old }
{
    match buses {
        [] => {}
        [f, rest @ ..] => {
            put_bus_fields(parts, on, bus, f);
            put_fields_from(parts, on, bus + 1, rest);
        }
    }
}

/// Puts the fields of all buses.
#[tactic(auto, using(crate::proofs::Layouts::layout_fields, crate::proofs::Layouts::layout_count))]
fn put_all_fields(parts: &mut Parts, on: &On<'_>)
    ensures { let T = on.now.applied.now in let M = on.now.m.now in
        parts.new ≡ wires_put T M (map s.Fetched (flat_map (h.bus_fields M)
        (numbers (length M.buses)))) parts.old }
{
    put_fields_from(parts, on, 0, on.layout.buses.as_slice());
}

/// Puts the template's code, if it has bits.
#[tactic(auto, using(crate::proofs::Depths::known))]
fn put_template(parts: &mut Parts, on: &On<'_>)
    ensures { let T = on.now.applied.now in let M = on.now.m.now in
        parts.new ≡ wires_put T M
        (map s.Fetched (h.with_bits (template_width M) s.TemplateOf)) parts.old }
{
    if 0 < on.layout.template_width {
        parts.put(Part::Instruction, Cost::free());
    }
}

/// Puts the long immediate.
fn put_long(parts: &mut Parts, on: &On<'_>)
    ensures { let T = on.now.applied.now in let M = on.now.m.now in
        parts.new ≡ wires_put T M (s.Fetched s.LongOf ∷ []) parts.old }
{
    parts.put(Part::Instruction, long(on));
}

/// Puts the fields of the instruction.
fn put_fields(parts: &mut Parts, on: &On<'_>)
    ensures { let T = on.now.applied.now in let M = on.now.m.now in
        parts.new ≡ wires_put T M (map s.Fetched (h.all_fields M)) parts.old }
{
    put_all_fields(parts, on);
    put_template(parts, on);
    put_long(parts, on);
}

/// Puts the words that so many result ports show, from one on.
fn put_ports(parts: &mut Parts, on: &On<'_>, unit: u8, count: u8)
    requires few { unit + count ≤ 255 }
    ensures { let T = on.now.applied.now in let M = on.now.m.now in
        parts.new ≡ wires_put T M (map s.Port (range_with_len unit count)) parts.old }
{
    if count == 0 {
        return;
    }
    parts.put(Part::Results, port(on, unit));
    put_ports(parts, on, unit + 1, count - 1);
}

/// Puts the wires of a bus.
fn put_bus(parts: &mut Parts, on: &On<'_>, bus: usize, f: &BusFields)
    requires { f.now ≡ fields_of on.now.m.now bus }
    ensures { let T = on.now.applied.now in let M = on.now.m.now in
        parts.new ≡ wires_put T M (h.bus_wires bus) parts.old }
{
    parts.put(Part::Buses, bus_acts(on, bus, f));
    parts.put(Part::Buses, bus_word(on, bus, f));
}

/// Puts the wires of buses, from one on.
fn put_buses_from(parts: &mut Parts, on: &On<'_>, bus: usize, buses: &[BusFields])
    requires room { bus + length buses.now < 2 ^ 64 }
    requires fields { buses.now ≡ map (fields_of on.now.m.now)
        (range_with_len bus (length buses.now)) }
    ensures { let T = on.now.applied.now in let M = on.now.m.now in
        parts.new ≡ wires_put T M (flat_map h.bus_wires
        (range_with_len bus (length buses.now))) parts.old }
{
    match buses {
        [] => {}
        [f, rest @ ..] => {
            put_bus(parts, on, bus, f);
            put_buses_from(parts, on, bus + 1, rest);
        }
    }
}

/// Puts the wires of all buses.
#[tactic(auto, using(crate::proofs::Layouts::layout_fields, crate::proofs::Layouts::layout_count))]
fn put_buses(parts: &mut Parts, on: &On<'_>)
    ensures { let T = on.now.applied.now in let M = on.now.m.now in
        parts.new ≡ wires_put T M (flat_map h.bus_wires (numbers (length M.buses))) parts.old }
{
    put_buses_from(parts, on, 0, on.layout.buses.as_slice());
}

/// Puts which of so many operations of a unit start, from one on.
fn put_starts(parts: &mut Parts, on: &On<'_>, unit: u8, op: u8, count: u8)
    requires few { op + count ≤ 255 }
    ensures { let T = on.now.applied.now in let M = on.now.m.now in
        parts.new ≡ wires_put T M (map (s.Starts unit) (range_with_len op count)) parts.old }
{
    if count == 0 {
        return;
    }
    parts.put(Part::Operands, start(on, unit, op));
    put_starts(parts, on, unit, op + 1, count - 1);
}

/// Puts the words that go to a unit.
fn put_words(parts: &mut Parts, on: &On<'_>, unit: u8)
    ensures { let T = on.now.applied.now in let M = on.now.m.now in
        parts.new ≡ wires_put T M (s.Trigger unit ∷ s.Operand unit ∷ []) parts.old }
{
    parts.put(Part::Operands, trigger(on, unit));
    parts.put(Part::Operands, operand(on, unit));
}

/// Puts which operations of a unit start.
fn put_all_starts(parts: &mut Parts, on: &On<'_>, unit: u8, u: &Unit)
    requires few { length u.now.ops ≤ 255 }
    ensures { let T = on.now.applied.now in let M = on.now.m.now in
        parts.new ≡ wires_put T M (map (s.Starts unit) (numbers (length u.now.ops))) parts.old }
{
    put_starts(parts, on, unit, 0, u.ops.len() as u8);
}

/// Puts the wires of a unit.
fn put_unit(parts: &mut Parts, on: &On<'_>, unit: u8, u: &Unit)
    requires few { length u.now.ops ≤ 255 }
    ensures { let T = on.now.applied.now in let M = on.now.m.now in
        parts.new ≡ wires_put T M (h.unit_wires (unit, u.now)) parts.old }
{
    put_all_starts(parts, on, unit, u);
    put_words(parts, on, unit);
}

/// Puts the wires of units, from one on.
fn put_units(parts: &mut Parts, on: &On<'_>, unit: u8, units: &[Unit])
    requires few { unit + length units.now ≤ 255 }
    requires rules { list_all (is_unit on.now.m.now.sockets) units.now ≡ true }
    ensures { let T = on.now.applied.now in let M = on.now.m.now in
        parts.new ≡ wires_put T M (flat_map h.unit_wires (enumerate_from unit units.now)) parts.old }
{
    match units {
        [] => {}
        [u, rest @ ..] => {
            put_unit(parts, on, unit, u);
            put_units(parts, on, unit + 1, rest);
        }
    }
}

/// Puts which control move acts and takes effect.
fn put_moves(parts: &mut Parts, on: &On<'_>)
    ensures { let T = on.now.applied.now in let M = on.now.m.now in
        parts.new ≡ wires_put T M
        (s.Controls ∷ s.GoalNow ∷ s.EndsNow ∷ s.Lands ∷ []) parts.old }
{
    parts.put(Part::Control, ctl::controls(on));
    parts.put(Part::Control, ctl::goal_now(on));
    parts.put(Part::Control, ctl::ends_now(on));
    parts.put(Part::Control, ctl::lands(on));
}

/// Puts whether a clock carries the instruction out, and what it puts out.
fn put_goings(parts: &mut Parts, of: &Streams<'_>)
    ensures { let T = of.now.on.now.applied.now in let M = of.now.on.now.m.now in
        parts.new ≡ wires_put T M (s.Asks ∷ s.Gives ∷ s.Goes ∷ s.NextPc ∷ s.Puts ∷ s.PutWord
        ∷ []) parts.old }
{
    parts.put(Part::Control, ctl::asks(of));
    parts.put(Part::Control, ctl::gives(of));
    parts.put(Part::Control, ctl::goes(of));
    parts.put(Part::Control, ctl::next_pc(of.on));
    parts.put(Part::Control, ctl::puts(of));
    parts.put(Part::Control, ctl::put_word(of));
}

/// Puts the words that all result ports show.
fn put_all_ports(parts: &mut Parts, on: &On<'_>)
    ensures { let T = on.now.applied.now in let M = on.now.m.now in
        parts.new ≡ wires_put T M (map s.Port (numbers (length M.units))) parts.old }
{
    let m = on.m;
    put_ports(parts, on, 0, m.units.len() as u8);
}

/// Puts the wires of all units.
fn put_all_units(parts: &mut Parts, on: &On<'_>)
    ensures { let T = on.now.applied.now in let M = on.now.m.now in
        parts.new ≡ wires_put T M (flat_map h.unit_wires (enumerate_from 0 M.units)) parts.old }
{
    let m = on.m;
    put_units(parts, on, 0, m.units.as_slice());
}

/// Puts all wires.
pub fn put_wires(parts: &mut Parts, of: &Streams<'_>)
    ensures { let T = of.now.on.now.applied.now in let M = of.now.on.now.m.now in
        parts.new ≡ wires_put T M (h.wire_names M) parts.old }
{
    let on = of.on;
    put_fields(parts, on);
    put_all_ports(parts, on);
    put_buses(parts, on);
    put_all_units(parts, on);
    put_moves(parts, on);
    put_goings(parts, of);
}
