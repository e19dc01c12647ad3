//! The registers of a machine, as parts of its circuit.

ghost use Rattle.std.specs.Prelude.{◌≡◌, ◌+◌, ◌-◌, ◌<◌, ◌≤◌, true, if◌then◌else◌, [], ◌∷◌, map, length};
ghost use Rattle.std.specs.List.{enumerate_from, flat_map, list_all, range_with_len};
ghost use Rattle.tta_arch.specs.Effects.{KeptOperand, KeptPort, KeptRa};
ghost use Rattle.tta_arch.specs.Rules.{is_file, is_imm, is_unit};
ghost use Rattle.tta_circuit.specs.Circuit as c;
ghost use Rattle.tta_cost.specs.Depths.{cost_of};
ghost use Rattle.tta_cost.specs.Rows.{file_row, imm_row, named, part_of_row};
ghost use Rattle.tta_cost.specs.Tally.{cost_of_register, registers_put};
ghost use Rattle.tta_hardware.specs.Hardware as h;
ghost use Rattle.tta_hardware.specs.Registers as r;
ghost use Rattle.tta_hardware.specs.Signals as s;
ghost use Rattle.tta_hardware.specs.Wires as w;
ghost use Rattle.tta_measure.specs.Cost as k;

use crate::buses::file_width;
use crate::control::{ends_line, goal_line, next_line};
use crate::loads::put_all_loads;
use crate::on::On;
use crate::parts::{Part, Parts};
use crate::registers as regs;
use crate::starts::operand_line;
use tta_arch::{File, ImmUnit, Unit};
use tta_measure::Cost;
use tta_offers::longest;

/// A machine with whether a clock carries the instruction out, where that is read.
#[derive(Clone, Copy)]
pub struct Clock<'a> {
    pub on: &'a On<'a>,
    pub goes: Cost,
    ghost goes_is: { goes ≡ cost_of on.now.applied.now on.now.m.now (c.Signal s.Goes) },
}

/// Registers that stand in a row.
#[derive(Clone, Copy)]
pub enum Row {
    /// Those of a file.
    File(u8),
    /// Those of an immediate unit.
    Immediate(u8),
    /// Whether results of a unit are due, by cycles.
    IsDue(u8),
    /// The words of a unit that are due, by cycles.
    Due(u8),
    /// Whether a control move takes effect, by cycles.
    Underway,
}

/// The clocks at which a register takes a word.
fn enabled(of: &Clock<'_>, restarts: bool) -> Cost
    ensures { let T = of.now.on.now.applied.now in let M = of.now.on.now.m.now in
        result ≡ cost_of T M (if restarts then c.Either (c.Signal s.IsReset) (c.Signal s.Goes)
        else c.Signal s.Goes) }
{
    if restarts {
        regs::reset(of.on).gate(of.goes)
    } else {
        of.goes
    }
}

/// A register of so many bits, by what it becomes.
pub fn register(of: &Clock<'_>, width: u64, restarts: bool, next: Cost) -> Cost
    ensures { let T = of.now.on.now.applied.now in let M = of.now.on.now.m.now in
        result ≡ k.held width (k.beside (cost_of T M
        (if restarts then c.Either (c.Signal s.IsReset) (c.Signal s.Goes) else c.Signal s.Goes)) next) }
{
    enabled(of, restarts).beside(next).held(width)
}

/// A register of a row, by its number.
fn row_register(of: &Clock<'_>, row: Row, n: u8) -> Cost
    requires later { n < 255 }
    ensures { let T = of.now.on.now.applied.now in let M = of.now.on.now.m.now in
        result ≡ cost_of_register T M (r.register M (named row n)) }
{
    let on = of.on;
    match row {
        Row::File(file) => {
            let width = u64::from(file_width(on.m, file));
            register(of, width, false, regs::file_next(on, file, n))
        }
        Row::Immediate(unit) => register(of, 32, false, regs::imm_next(on, unit, n)),
        Row::IsDue(unit) => register(of, 1, true, regs::due_next(on, unit, n)),
        Row::Due(unit) => register(of, 32, false, regs::due_word_next(on, unit, n)),
        Row::Underway => register(of, 1, true, regs::underway_next(on, n)),
    }
}

/// The part to which a row belongs.
fn row_part(row: Row) -> Part
    ensures { result ≡ part_of_row row }
{
    match row {
        Row::File(_) => Part::Files,
        Row::Immediate(_) => Part::Immediates,
        Row::IsDue(_) | Row::Due(_) => Part::Results,
        Row::Underway => Part::Control,
    }
}

/// Puts so many registers of a row, from one on.
#[tactic(auto, using(crate::proofs::RowSteps::row_of))]
fn put_row(parts: &mut Parts, of: &Clock<'_>, row: Row, n: u8, count: u8)
    requires { n + count ≤ 255 }
    ensures { let T = of.now.on.now.applied.now in let M = of.now.on.now.m.now in
        parts.new ≡ registers_put T M (map (named row) (range_with_len n count)) parts.old }
{
    if count == 0 {
        return;
    }
    parts.put(row_part(row), row_register(of, row, n));
    put_row(parts, of, row, n + 1, count - 1);
}

/// Puts the registers of files, from one on.
#[tactic(auto, using(crate::proofs::RowSteps::lists_of))]
fn put_files(parts: &mut Parts, of: &Clock<'_>, file: u8, files: &[File])
    requires few { file + length files.now ≤ 255 }
    requires rules { list_all (is_file of.now.on.now.m.now.sockets) files.now ≡ true }
    ensures { let T = of.now.on.now.applied.now in let M = of.now.on.now.m.now in
        parts.new ≡ registers_put T M (flat_map file_row (enumerate_from file files.now)) parts.old }
{
    match files {
        [] => {}
        [f, rest @ ..] => {
            put_row(parts, of, Row::File(file), 0, f.size);
            put_files(parts, of, file + 1, rest);
        }
    }
}

/// Puts the registers of immediate units, from one on.
#[tactic(auto, using(crate::proofs::RowSteps::lists_of))]
fn put_imms(parts: &mut Parts, of: &Clock<'_>, unit: u8, imms: &[ImmUnit])
    requires few { unit + length imms.now ≤ 255 }
    requires rules { list_all (is_imm of.now.on.now.m.now.sockets) imms.now ≡ true }
    ensures { let T = of.now.on.now.applied.now in let M = of.now.on.now.m.now in
        parts.new ≡ registers_put T M (flat_map imm_row (enumerate_from unit imms.now)) parts.old }
{
    match imms {
        [] => {}
        [i, rest @ ..] => {
            put_row(parts, of, Row::Immediate(unit), 0, i.size);
            put_imms(parts, of, unit + 1, rest);
        }
    }
}

/// Puts the ports of a unit.
fn put_ports(parts: &mut Parts, of: &Clock<'_>, unit: u8)
    ensures { let T = of.now.on.now.applied.now in let M = of.now.on.now.m.now in
        parts.new ≡ registers_put T M
        (s.Keeps (KeptOperand unit) ∷ s.Keeps (KeptPort unit) ∷ []) parts.old }
{
    let on = of.on;
    let operand = operand_line(on, unit);
    parts.put(Part::Operands, register(of, 32, false, operand));
    let port = regs::port_next(on, unit);
    parts.put(Part::Results, register(of, 32, false, port));
}

/// For how many delays a result of a unit is kept before it is in its port.
fn later_delays(on: &On<'_>, unit: u8) -> u8
    ensures count { result ≡ w.longest on.now.m.now unit - 1 }
    ensures few { result < 255 }
{
    longest(on.m, unit).saturating_sub(1)
}

/// Puts whether results of a unit are due, by cycles.
fn put_dues(parts: &mut Parts, of: &Clock<'_>, unit: u8)
    ensures { let T = of.now.on.now.applied.now in let M = of.now.on.now.m.now in
        parts.new ≡ registers_put T M (map (s.IsDue unit)
        (range_with_len 1 (w.longest M unit - 1))) parts.old }
{
    put_row(parts, of, Row::IsDue(unit), 1, later_delays(of.on, unit));
}

/// Puts the words of a unit that are due, by cycles.
fn put_due_words(parts: &mut Parts, of: &Clock<'_>, unit: u8)
    ensures { let T = of.now.on.now.applied.now in let M = of.now.on.now.m.now in
        parts.new ≡ registers_put T M (map (s.Due unit)
        (range_with_len 1 (w.longest M unit - 1))) parts.old }
{
    put_row(parts, of, Row::Due(unit), 1, later_delays(of.on, unit));
}

/// Puts the registers of a unit.
fn put_unit(parts: &mut Parts, of: &Clock<'_>, unit: u8, u: &Unit)
    requires few { length u.now.ops ≤ 255 }
    ensures { let T = of.now.on.now.applied.now in let M = of.now.on.now.m.now in
        parts.new ≡ registers_put T M (h.unit_registers M (unit, u.now)) parts.old }
{
    put_ports(parts, of, unit);
    put_dues(parts, of, unit);
    put_due_words(parts, of, unit);
    put_all_loads(parts, of, unit, u);
}

/// Puts the registers of units, from one on.
fn put_units(parts: &mut Parts, of: &Clock<'_>, unit: u8, units: &[Unit])
    requires few { unit + length units.now ≤ 255 }
    requires rules { list_all (is_unit of.now.on.now.m.now.sockets) units.now ≡ true }
    ensures { let T = of.now.on.now.applied.now in let M = of.now.on.now.m.now in
        parts.new ≡ registers_put T M (flat_map (h.unit_registers M)
        (enumerate_from unit units.now)) parts.old }
{
    match units {
        [] => {}
        [u, rest @ ..] => {
            put_unit(parts, of, unit, u);
            put_units(parts, of, unit + 1, rest);
        }
    }
}

/// Puts the registers that every machine has.
fn put_fixed(parts: &mut Parts, of: &Clock<'_>)
    ensures { let T = of.now.on.now.applied.now in let M = of.now.on.now.m.now in
        parts.new ≡ registers_put T M (s.Keeps KeptRa ∷ s.Pc ∷ s.Whole ∷ s.HasHalted ∷ s.Goal
        ∷ s.Ends ∷ []) parts.old }
{
    let on = of.on;
    let m = on.m;
    let address = u64::from(m.control.address);
    parts.put(Part::Control, register(of, 32, false, regs::ra_next(on)));
    parts.put(Part::Control, register(of, address, true, next_line(on)));
    let bits = u64::from(on.layout.width());
    let word = register(of, bits, true, regs::whole_next(on));
    parts.put(Part::Instruction, word);
    parts.put(Part::Control, register(of, 1, true, regs::halted_next(on)));
    parts.put(Part::Control, register(of, 32, false, goal_line(on)));
    parts.put(Part::Control, register(of, 1, false, ends_line(on)));
}

/// Puts the registers of all files.
fn put_all_files(parts: &mut Parts, of: &Clock<'_>)
    ensures { let T = of.now.on.now.applied.now in let M = of.now.on.now.m.now in
        parts.new ≡ registers_put T M (flat_map file_row (enumerate_from 0 M.files)) parts.old }
{
    let m = of.on.m;
    put_files(parts, of, 0, m.files.as_slice());
}

/// Puts those of all immediate units.
fn put_all_imms(parts: &mut Parts, of: &Clock<'_>)
    ensures { let T = of.now.on.now.applied.now in let M = of.now.on.now.m.now in
        parts.new ≡ registers_put T M (flat_map imm_row (enumerate_from 0 M.imms)) parts.old }
{
    let m = of.on.m;
    put_imms(parts, of, 0, m.imms.as_slice());
}

/// Puts those of all units.
fn put_all_units(parts: &mut Parts, of: &Clock<'_>)
    ensures { let T = of.now.on.now.applied.now in let M = of.now.on.now.m.now in
        parts.new ≡ registers_put T M (flat_map (h.unit_registers M)
        (enumerate_from 0 M.units)) parts.old }
{
    let m = of.on.m;
    put_units(parts, of, 0, m.units.as_slice());
}

/// Puts whether control moves take effect, by cycles.
fn put_underways(parts: &mut Parts, of: &Clock<'_>)
    ensures { let T = of.now.on.now.applied.now in let M = of.now.on.now.m.now in
        parts.new ≡ registers_put T M (map s.Underway
        (range_with_len 1 M.control.delay)) parts.old }
{
    let m = of.on.m;
    m.rules();
    put_row(parts, of, Row::Underway, 1, m.control.delay);
}

/// Puts all registers.
pub fn put_registers(parts: &mut Parts, of: &Clock<'_>)
    ensures { let T = of.now.on.now.applied.now in let M = of.now.on.now.m.now in
        parts.new ≡ registers_put T M (h.register_names M) parts.old }
{
    put_all_files(parts, of);
    put_all_imms(parts, of);
    put_all_units(parts, of);
    put_underways(parts, of);
    put_fixed(parts, of);
}
