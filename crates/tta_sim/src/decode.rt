//! How instructions are decoded.

ghost use Rattle.std.specs.Prelude.{◌≡◌, ◌<◌, ◌≤◌, ◌+◌, ◌==◌, [], ◌∷◌, ◌++◌, true, None};
ghost use Rattle.std.specs.Prelude.{length};
ghost use Rattle.std.specs.Prelude.{is_some, option_and_then, option_copied, option_map};
ghost use Rattle.std.specs.Prelude.{option_to_list};
ghost use Rattle.std.specs.Prelude.{IfOk, OnOk};
ghost use Rattle.std.specs.List.{list_any};
ghost use Rattle.tta_arch.specs.Effects.{KeptReg, KeptImm, op_at, width_of};
ghost use Rattle.tta_sim.specs.Places.{number_of};
ghost use Rattle.tta_sim.specs.Decoded.{source_decoded, guard_decoded, reading_of, write_decoded};
ghost use Rattle.tta_sim.specs.Decoded.{start_decoded, control_decoded, is_loud_start, is_pure};
ghost use Rattle.tta_sim.specs.Decoded.{long_decoded, line_of, lines_from, with_move};

use crate::control::ControlKind;
use crate::decoded::{
    DecodedControl, DecodedGuard, DecodedSource, DecodedStart, DecodedWrite, Line, Reading,
};
use crate::places::{IMMEDIATE_REGISTERS, IMMEDIATES, OPERANDS, REGISTERS, RETURN_ADDRESS};
use crate::starts::is_loud;
use std::alloc::{AllocError, Global};
use tta_arch::{Dest, GuardRef, Machine, Source, UnitOp};
use tta_code::{Code, Instruction, Long, Move};
use tta_list::Items;

/// The number of a register's place.
fn register(file: u8, index: u8) -> u32
    ensures { result ≡ number_of (KeptReg file index) }
{
    u32::from(file) * REGISTERS + u32::from(index)
}

/// The number of an immediate register's place.
fn immediate(unit: u8, index: u8) -> u32
    ensures { result ≡ number_of (KeptImm unit index) }
{
    IMMEDIATES + u32::from(unit) * IMMEDIATE_REGISTERS + u32::from(index)
}

/// A source, with its place in the words that a run keeps.
fn source(src: Source) -> DecodedSource
    ensures { result ≡ source_decoded src }
{
    match src {
        Source::Reg { file, index } => DecodedSource::Place(register(file, index)),
        Source::Imm { unit, index } => DecodedSource::Place(immediate(unit, index)),
        Source::Shown { unit } => DecodedSource::Port(unit),
        Source::Ra => DecodedSource::Place(RETURN_ADDRESS),
        Source::Value(word) => DecodedSource::Word(word),
    }
}

/// A guard, with the place of its register.
fn guard(g: Option<GuardRef>) -> Option<DecodedGuard>
    ensures { result ≡ option_map guard_decoded g }
{
    match g {
        None => None,
        Some(g) => Some(DecodedGuard {
            place: register(g.file, g.index),
            inverted: g.inverted,
        }),
    }
}

/// What a move reads: its guard and its source.
fn reading(v: &Move) -> Reading
    ensures { result ≡ reading_of v.now }
{
    Reading {
        guard: guard(v.guard),
        src: source(v.src),
    }
}

/// Whether a file has registers of one bit.
fn is_narrow(m: &Machine, file: u8) -> bool
    ensures { result ≡ (width_of m.now file == 1) }
{
    match m.files.as_slice().get(usize::from(file)) {
        Some(f) => f.width == 1,
        None => false,
    }
}

/// The operation of a unit with this number, if there is one.
pub fn op_of(m: &Machine, unit: u8, op: u8) -> Option<&UnitOp>
    ensures op { option_copied result ≡ op_at m.now unit op }
    ensures unit { is_some result ≡ true → unit < length m.now.units }
{
    match m.units.as_slice().get(usize::from(unit)) {
        Some(u) => u.ops.as_slice().get(usize::from(op)),
        None => None,
    }
}

/// The write of a move, if it writes. A call writes the address to come back to.
fn write_in(m: &Machine, back: u32, slot: &Option<Move>) -> Option<DecodedWrite>
    ensures { result ≡ option_and_then (write_decoded m.now back) slot.now }
{
    let Some(v) = slot else {
        return None;
    };
    let reading = reading(v);
    match v.dst {
        Dest::Reg { file, index } => Some(DecodedWrite {
            reading,
            place: register(file, index),
            narrow: is_narrow(m, file),
        }),
        Dest::Operand { unit } => Some(DecodedWrite {
            reading,
            place: OPERANDS + u32::from(unit),
            narrow: false,
        }),
        Dest::Call => Some(DecodedWrite {
            reading: Reading {
                guard: reading.guard,
                src: DecodedSource::Word(back),
            },
            place: RETURN_ADDRESS,
            narrow: false,
        }),
        Dest::Trigger { .. } | Dest::Jump | Dest::Halt => None,
    }
}

/// The start of a move, if it starts an operation.
fn start_in(m: &Machine, slot: &Option<Move>) -> Option<DecodedStart>
    ensures { result ≡ option_and_then (start_decoded m.now) slot.now }
{
    let Some(v) = slot else {
        return None;
    };
    let Dest::Trigger { unit, op } = v.dst else {
        return None;
    };
    match op_of(m, unit, op) {
        Some(does) => Some(DecodedStart {
            reading: reading(v),
            unit,
            does: *does,
        }),
        None => None,
    }
}

/// The control move that a move is, if it is one.
fn control_in(slot: &Option<Move>) -> Option<DecodedControl>
    ensures { result ≡ option_and_then control_decoded slot.now }
{
    let Some(v) = slot else {
        return None;
    };
    let kind = match v.dst {
        Dest::Jump => ControlKind::Jump,
        Dest::Call => ControlKind::Call,
        Dest::Halt => ControlKind::Halt,
        Dest::Reg { .. } | Dest::Operand { .. } | Dest::Trigger { .. } => return None,
    };
    Some(DecodedControl {
        reading: reading(v),
        kind,
    })
}

/// The write of a long immediate, if there is one.
fn write_long(m: &Machine, long: Option<Long>) -> Option<DecodedWrite>
    ensures { result ≡ long_decoded m.now long }
{
    let Some(l) = long else {
        return None;
    };
    match m.templates.as_slice().get(usize::from(l.template)) {
        Some(t) => Some(DecodedWrite {
            reading: Reading {
                guard: None,
                src: DecodedSource::Word(l.value),
            },
            place: immediate(t.imm, t.reg),
            narrow: false,
        }),
        None => None,
    }
}

/// Adds a value, if there is one.
fn add<T: Drop>(list: &mut Items<T>, value: Option<T>) -> Result<(), AllocError>
    ensures { OnOk result (list.new ≡ list.old ++ option_to_list value) }
{
    if let Some(value) = value {
        list.push(value)?;
    }
    Ok(())
}

/// Adds what a move does.
fn add_move(line: &mut Line, m: &Machine, back: u32, slot: &Option<Move>) -> Result<(), AllocError>
    ensures { OnOk result (line.new ≡ with_move m.now back line.old slot.now) }
{
    add(&mut line.writes, write_in(m, back, slot))?;
    add(&mut line.starts, start_in(m, slot))?;
    add(&mut line.controls, control_in(slot))
}

/// Adds what the moves and the long immediate of an instruction do.
fn add_moves(line: &mut Line, m: &Machine, back: u32, i: &Instruction) -> Result<(), AllocError>
    requires { line.old ≡ line_of m.now back (record { moves = []; long = None }) }
    ensures { OnOk result (line.new ≡ record (line_of m.now back i.now) { pure = true }) }
{
    for slot in i.moves.as_slice() {
        add_move(line, m, back, slot)?;
    }
    add(&mut line.writes, write_long(m, i.long))
}

/// Whether some operation stores, outputs or takes a word.
fn any_loud(starts: &[DecodedStart]) -> bool
    ensures { result ≡ list_any is_loud_start starts.now }
{
    for s in starts {
        if is_loud(s.does.op) {
            return true;
        }
    }
    false
}

/// Whether no operation stores, outputs or takes a word, and there is no control move.
fn is_pure(starts: &Items<DecodedStart>, controls: &Items<DecodedControl>) -> bool
    ensures { result ≡ is_pure starts.now controls.now }
{
    !any_loud(starts.as_slice()) && controls.is_empty()
}

/// An instruction, decoded. Where it calls, `back` is the address to come back to.
fn line(alloc: Global, m: &Machine, back: u32, i: &Instruction) -> Result<Line, AllocError>
    ensures { IfOk result (λ l. l ≡ line_of m.now back i.now) }
{
    let mut line = Line {
        writes: Items::new(alloc),
        starts: Items::new(alloc),
        controls: Items::new(alloc),
        pure: true,
    };
    add_moves(&mut line, m, back, i)?;
    line.pure = is_pure(&line.starts, &line.controls);
    Ok(line)
}

/// Adds an instruction, decoded.
fn add_line(
    lines: &mut Items<Line>,
    alloc: Global,
    m: &Machine,
    back: u32,
    i: &Instruction,
) -> Result<(), AllocError>
    ensures { OnOk result (lines.new ≡ lines.old ++ line_of m.now back i.now ∷ []) }
{
    let line = line(alloc, m, back, i)?;
    lines.push(line)?;
    Ok(())
}

/// The instructions of code, decoded.
pub fn decode(alloc: Global, m: &Machine, code: &Code) -> Result<Items<Line>, AllocError>
    requires { length code.now.words ≤ 65536 }
    ensures { IfOk result (λ lines.
        lines ≡ lines_from m.now (1 + m.now.control.delay) code.now.words) }
{
    let mut lines = Items::new(alloc);
    let mut back = 1 + u32::from(m.control.delay);
    for i in code.words.as_slice() {
        add_line(&mut lines, alloc, m, back, i)?;
        back += 1;
    }
    Ok(lines)
}
