//! What destinations stand for.

ghost use Rattle.std.specs.Prelude.{◌≡◌};
ghost use Rattle.tta_parse.specs.Names.{named_in};
ghost use Rattle.tta_parse.specs.Steps.{◌>>?◌};
ghost use Rattle.tta_ops.specs.Set.{stated};
ghost use Rattle.tta_asm.specs.Parts.{parts_of};
ghost use Rattle.tta_asm.specs.Resolving.{register_at, operand_of, trigger_of, control_of};
ghost use Rattle.tta_asm.specs.Resolving.{dest_of};
ghost use Rattle.tta_asm.specs.Seen.{dest_seen};

use crate::forms::DestForm;
use crate::parts::Part;
use crate::places::{file_at, index_below, unit_at};
use crate::target::Target;
use tta_arch::{Dest, Machine};

/// The register of a file that has this index.
fn register_at(m: &Machine, index: u32, part: Part) -> Option<Dest>
    ensures { result ≡ register_at m.now index part }
{
    let Part::File(file) = part else {
        return None;
    };
    let f = file_at(m, file)?;
    match index_below(index, f.size) {
        Some(index) => Some(Dest::Reg { file, index }),
        None => None,
    }
}

/// The operand port of a unit that has one.
fn operand_of(m: &Machine, part: Part) -> Option<Dest>
    ensures { result ≡ operand_of m.now part }
{
    let Part::Unit(unit) = part else {
        return None;
    };
    match unit_at(m, unit) {
        Some(u) if u.operand.is_some() => Some(Dest::Operand { unit }),
        _ => None,
    }
}

/// The operation of a unit that has this name.
fn trigger_of(target: &Target, name: &[u8], part: Part) -> Option<Dest>
    ensures { result ≡ trigger_of (stated unit_meaning target.now.units.now)
        target.now.machine.now name.now part }
{
    let Part::Unit(unit) = part else {
        return None;
    };
    let op = target.op(unit, name)?;
    Some(Dest::Trigger { unit, op })
}

/// What control can be asked to do.
fn control_of(op: &[u8]) -> Option<Dest>
    ensures { result ≡ control_of op.now }
{
    if op == b"jump".as_slice() {
        return Some(Dest::Jump);
    }
    if op == b"call".as_slice() {
        return Some(Dest::Call);
    }
    if op == b"halt".as_slice() {
        return Some(Dest::Halt);
    }
    None
}

/// The register of this index in the file of this name.
fn register_named(target: &Target, name: &[u8], index: u32) -> Option<Dest>
    ensures { result ≡ (named_in (parts_of target.now.machine.now) name.now
        >>? register_at target.now.machine.now index) }
{
    let part = target.part(name)?;
    register_at(target.machine, index, part)
}

/// The operand port of the unit of this name.
fn operand_named(target: &Target, name: &[u8]) -> Option<Dest>
    ensures { result ≡ (named_in (parts_of target.now.machine.now) name.now
        >>? operand_of target.now.machine.now) }
{
    let part = target.part(name)?;
    operand_of(target.machine, part)
}

/// The operation of this name of the unit of this name.
fn trigger_named(target: &Target, unit: &[u8], op: &[u8]) -> Option<Dest>
    ensures { result ≡ (named_in (parts_of target.now.machine.now) unit.now
        >>? trigger_of (stated unit_meaning target.now.units.now) target.now.machine.now op.now) }
{
    let part = target.part(unit)?;
    trigger_of(target, op, part)
}

/// The destination of a form, where the machine has it.
pub fn dest_of(target: &Target, form: &DestForm) -> Option<Dest>
    ensures { result ≡ dest_of (stated unit_meaning target.now.units.now)
        target.now.machine.now (dest_seen form.now) }
{
    match *form {
        DestForm::Place { name, index } => register_named(target, name, index),
        DestForm::Operand { unit } => operand_named(target, unit),
        DestForm::Trigger { unit, op } => {
            if unit == b"gcu".as_slice() {
                control_of(op)
            } else {
                trigger_named(target, unit, op)
            }
        }
    }
}
