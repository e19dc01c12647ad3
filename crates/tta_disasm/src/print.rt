//! The canonical text of code with its data.

ghost use Rattle.std.specs.Prelude.{◌≡◌, ◌++◌, decimal, IfOk, OnOk};
ghost use Rattle.std.specs.List.{flat_map};
ghost use Rattle.tta_ops.specs.Set.{stated};
ghost use Rattle.tta_disasm.specs.Canonical.{unit_name, place_text, guard_text, source_text};
ghost use Rattle.tta_disasm.specs.Canonical.{dest_text, move_text, slot_text};
ghost use Rattle.tta_arch.specs.declared.ends.Dest.TheVariants.{Trigger};
ghost use Rattle.tta_disasm.specs.Printing.{later_slot_text};
ghost use Rattle.tta_disasm.specs.Canonical.{slots_text, long_text, instruction_text, datum_text};
ghost use Rattle.tta_disasm.specs.Canonical.{canonical};

use crate::named::{file_name, imm_name, op_name_at, template_name, unit_name};
use itoa::Buffer;
use std::alloc::{AllocError, Global};
use tta_arch::{Dest, GuardRef, Machine, Source};
use tta_code::{Datum, Instruction, Long, Move, Whole};
use tta_ops::UnitSet;

/// Puts a number at the end, in decimal.
fn push_number(out: &mut Vec<u8>, n: u32) -> Result<(), AllocError>
    ensures { OnOk result (out.new.items ≡ out.old.items ++ decimal n) }
{
    let mut buffer = Buffer::new();
    out.extend_from_slice(buffer.format(n).as_bytes())
}

/// Appends a register, by the name of its file or immediate unit and by its index. It fails only
/// where there is no memory.
pub fn push_place(out: &mut Vec<u8>, name: &[u8], index: u8) -> Result<(), AllocError>
    ensures { OnOk result (out.new.items ≡ out.old.items ++ place_text name.now index) }
{
    out.extend_from_slice(name)?;
    out.extend_from_slice(b".")?;
    push_number(out, u32::from(index))
}

/// Puts a port of a unit at the end: the unit's name, and what names the port.
fn push_port(out: &mut Vec<u8>, m: &Machine, unit: u8, port: &[u8]) -> Result<(), AllocError>
    ensures { OnOk result (out.new.items ≡ out.old.items ++ (unit_name m.now unit ++ port.now)) }
{
    out.extend_from_slice(unit_name(m, unit))?;
    out.extend_from_slice(port)
}

/// Puts a guard and a blank at the end, if there is a guard.
fn push_guard(out: &mut Vec<u8>, m: &Machine, guard: Option<GuardRef>) -> Result<(), AllocError>
    ensures { OnOk result (out.new.items ≡ out.old.items ++ guard_text m.now guard) }
{
    let Some(g) = guard else {
        return Ok(());
    };
    let sense: &[u8] = if g.inverted { b"!" } else { b"?" };
    out.extend_from_slice(sense)?;
    push_place(out, file_name(m, g.file), g.index)?;
    out.extend_from_slice(b" ")
}

/// Puts a source at the end.
fn push_source(out: &mut Vec<u8>, m: &Machine, src: Source) -> Result<(), AllocError>
    ensures { OnOk result (out.new.items ≡ out.old.items ++ source_text m.now src) }
{
    match src {
        Source::Reg { file, index } => push_place(out, file_name(m, file), index),
        Source::Imm { unit, index } => push_place(out, imm_name(m, unit), index),
        Source::Shown { unit } => push_port(out, m, unit, b".r"),
        Source::Ra => out.extend_from_slice(b"gcu.ra"),
        Source::Value(word) => push_number(out, word),
    }
}

/// Puts the trigger port of a unit at the end, with an operation.
fn push_trigger(
    out: &mut Vec<u8>,
    units: &UnitSet,
    m: &Machine,
    unit: u8,
    op: u8,
) -> Result<(), AllocError>
    ensures { OnOk result (out.new.items ≡ out.old.items
        ++ dest_text (stated unit_meaning units.now) m.now (Trigger unit op)) }
{
    push_port(out, m, unit, b".t.")?;
    out.extend_from_slice(op_name_at(units, m, unit, op))
}

/// Puts a destination at the end.
fn push_dest(out: &mut Vec<u8>, units: &UnitSet, m: &Machine, dst: Dest) -> Result<(), AllocError>
    ensures { OnOk result (out.new.items ≡ out.old.items
        ++ dest_text (stated unit_meaning units.now) m.now dst) }
{
    match dst {
        Dest::Reg { file, index } => push_place(out, file_name(m, file), index),
        Dest::Operand { unit } => push_port(out, m, unit, b".o"),
        Dest::Trigger { unit, op } => push_trigger(out, units, m, unit, op),
        Dest::Jump => out.extend_from_slice(b"gcu.t.jump"),
        Dest::Call => out.extend_from_slice(b"gcu.t.call"),
        Dest::Halt => out.extend_from_slice(b"gcu.t.halt"),
    }
}

/// Appends a move: its guard if it has one, its source and its destination. It fails only where there
/// is no memory.
pub fn push_move(out: &mut Vec<u8>, units: &UnitSet, m: &Machine, v: Move) -> Result<(), AllocError>
    ensures { OnOk result (out.new.items ≡ out.old.items
        ++ move_text (stated unit_meaning units.now) m.now v) }
{
    push_guard(out, m, v.guard)?;
    push_source(out, m, v.src)?;
    out.extend_from_slice(b" -> ")?;
    push_dest(out, units, m, v.dst)
}

/// Puts a slot at the end: a move, or "...".
fn push_slot(
    out: &mut Vec<u8>,
    units: &UnitSet,
    m: &Machine,
    slot: Option<Move>,
) -> Result<(), AllocError>
    ensures { OnOk result (out.new.items ≡ out.old.items
        ++ slot_text (stated unit_meaning units.now) m.now slot) }
{
    match slot {
        None => out.extend_from_slice(b"..."),
        Some(v) => push_move(out, units, m, v),
    }
}

/// Puts a slot at the end, with a comma before it.
fn push_later_slot(
    out: &mut Vec<u8>,
    units: &UnitSet,
    m: &Machine,
    slot: Option<Move>,
) -> Result<(), AllocError>
    ensures { OnOk result (out.new.items ≡ out.old.items
        ++ later_slot_text (stated unit_meaning units.now) m.now slot) }
{
    out.extend_from_slice(b" , ")?;
    push_slot(out, units, m, slot)
}

/// Puts slots at the end, with a comma before each.
fn push_more_slots(
    out: &mut Vec<u8>,
    units: &UnitSet,
    m: &Machine,
    slots: &[Option<Move>],
) -> Result<(), AllocError>
    ensures { OnOk result (out.new.items ≡ out.old.items
        ++ flat_map (later_slot_text (stated unit_meaning units.now) m.now) slots.now) }
{
    for slot in slots {
        push_later_slot(out, units, m, *slot)?;
    }
    Ok(())
}

/// Puts slots at the end, with a comma between two.
fn push_slots(
    out: &mut Vec<u8>,
    units: &UnitSet,
    m: &Machine,
    slots: &[Option<Move>],
) -> Result<(), AllocError>
    ensures { OnOk result (out.new.items ≡ out.old.items
        ++ slots_text (stated unit_meaning units.now) m.now slots.now) }
{
    let [first, others @ ..] = slots else {
        return Ok(());
    };
    push_slot(out, units, m, *first)?;
    push_more_slots(out, units, m, others)?;
    Ok(())
}

/// Puts a long immediate at the end with a blank before it, if there is one.
fn push_long(out: &mut Vec<u8>, m: &Machine, long: Option<Long>) -> Result<(), AllocError>
    ensures { OnOk result (out.new.items ≡ out.old.items ++ long_text m.now long) }
{
    let Some(l) = long else {
        return Ok(());
    };
    out.extend_from_slice(b" [")?;
    out.extend_from_slice(template_name(m, l.template))?;
    out.extend_from_slice(b"=")?;
    push_number(out, l.value)?;
    out.extend_from_slice(b"]")
}

/// Puts an instruction at the end, as a line.
#[tactic(auto, unfolding(crate::specs::Canonical::instruction_text))]
pub fn push_instruction(
    out: &mut Vec<u8>,
    units: &UnitSet,
    m: &Machine,
    i: &Instruction,
) -> Result<(), AllocError>
    ensures { OnOk result (out.new.items ≡ out.old.items
        ++ instruction_text (stated unit_meaning units.now) m.now i.now) }
{
    push_slots(out, units, m, i.moves.as_slice())?;
    push_long(out, m, i.long)?;
    out.extend_from_slice(b" ;\n")
}

/// Puts instructions at the end, each as a line.
fn push_words(
    out: &mut Vec<u8>,
    units: &UnitSet,
    m: &Machine,
    words: &[Instruction],
) -> Result<(), AllocError>
    ensures { OnOk result (out.new.items ≡ out.old.items
        ++ flat_map (instruction_text (stated unit_meaning units.now) m.now) words.now) }
{
    for i in words {
        push_instruction(out, units, m, i)?;
    }
    Ok(())
}

/// Puts a datum at the end, as a line.
fn push_datum(out: &mut Vec<u8>, datum: Datum) -> Result<(), AllocError>
    ensures { OnOk result (out.new.items ≡ out.old.items ++ datum_text datum) }
{
    out.extend_from_slice(b"data ")?;
    push_number(out, datum.address)?;
    out.extend_from_slice(b" ")?;
    push_number(out, datum.value)?;
    out.extend_from_slice(b" ;\n")
}

/// Puts data at the end, each as a line.
fn push_data(out: &mut Vec<u8>, init: &[Datum]) -> Result<(), AllocError>
    ensures { OnOk result (out.new.items ≡ out.old.items ++ flat_map datum_text init.now) }
{
    for datum in init {
        push_datum(out, *datum)?;
    }
    Ok(())
}

/// The canonical text of code with its data: a line for each datum and then for each instruction,
/// with no labels and no comments. It fails only where there is no memory.
#[tactic(auto, unfolding(crate::specs::Canonical::canonical))]
pub fn disassemble(
    alloc: Global,
    whole: &Whole,
    m: &Machine,
    units: &UnitSet,
) -> Result<Vec<u8>, AllocError>
    ensures { IfOk result (λ v.
        v.items ≡ canonical (stated unit_meaning units.now) m.now whole.now) }
{
    let mut text = Vec::new(alloc);
    push_data(&mut text, whole.init.as_slice())?;
    push_words(&mut text, units, m, whole.code.words.as_slice())?;
    Ok(text)
}
